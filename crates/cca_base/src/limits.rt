//! How large a model may be.

/// The most components of a model.
pub const MAX_COMPONENTS: usize = 256;

/// The most modes of a component, and the most values of a variable.
pub const MAX_CHOICES: usize = 64;

/// The most variables of a model.
pub const MAX_VARIABLES: usize = 256;

/// The most rules of a model.
pub const MAX_RULES: usize = 512;

/// The most moves of a model, repairs among them.
pub const MAX_MOVES: usize = 4096;

/// The most failures of a model.
pub const MAX_FAILURES: usize = 4096;

/// The greatest depth of a formula's text.
pub const MAX_DEPTH: usize = 32;

/// The most bytes of a name.
pub const MAX_NAME: usize = 32;

/// The greatest cost of a failure; the least is 1.
pub const MAX_COST: u32 = 1_000_000;

/// The greatest weight of a mode; the least is 0.
pub const MAX_WEIGHT: u32 = 1_000_000;

/// The most prime implicants of a move.
pub const MAX_WAYS: usize = 256;

/// The greatest sum of all components' bounds.
pub const MAX_BOUND: u64 = 9_223_372_036_854_775_807;

/// The most commands of a plan that is written down.
pub const MAX_PLAN: usize = 10_000;

/// The most rows, edges or components of a graph, which are numbered from 0 by 16 bits.
pub const MAX_ROWS: usize = 65_536;

/// The most subjects that clauses speak of, whose count fits in 16 bits.
pub const MAX_SUBJECTS: usize = 65_535;
