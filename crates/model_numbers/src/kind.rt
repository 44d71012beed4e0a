//! Kinds of names.

/// A kind of names. Names of one kind are numbered from 0; those of modes in each component, those of values in each variable.
#[derive(Clone, Copy, Debug, PartialEq, Eq)]
pub enum Kind {
    Component,
    /// A mode of a component.
    Mode,
    Variable,
    /// A value of a variable.
    Value,
    Command,
}
