//! An order of the components, or why there is none.

use cca_base::List;

/// All components in order, or what stands against it.
#[derive(Debug, Drop)]
pub enum Order {
    /// All components, effects before their causes.
    Effects(List<u16>),
    /// The shown cycle, which begins and ends with one component.
    Cycle(List<u16>),
}
