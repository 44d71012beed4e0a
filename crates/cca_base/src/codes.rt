//! The numbers of the rules that an input may break. Where several are broken, the least is named.

/// The line has no form, or a number in it is out of form.
pub const MALFORMED: u8 = 1;

/// A name is not declared.
pub const NAME_UNKNOWN: u8 = 2;

/// A name stands twice in a list, or is declared already.
pub const NAME_REPEATED: u8 = 3;

/// A limit is passed.
pub const LIMIT: u8 = 4;

/// The command belongs to another component, or to another move from this mode.
pub const AMBIGUOUS: u8 = 5;

/// An ordinary move leads to a broken mode, or a repair breaks a mode to which one leads. In the first version repairs count too.
pub const INTO_BROKEN: u8 = 6;

/// An ordinary move leaves a broken mode.
pub const UNMARKED_EXIT: u8 = 7;

/// The mode has a repair to another mode.
pub const TWO_MENDS: u8 = 8;

/// A state has no world.
pub const CLASH: u8 = 9;

/// A move has too many prime implicants.
pub const WAYS: u8 = 10;

/// Components need each other in a ring.
pub const CYCLE: u8 = 11;

/// The bounds of all components add up to too much.
pub const DEEP: u8 = 12;

/// The variable isn't sensed.
pub const NOT_SENSED: u8 = 13;

/// The goal has a broken mode.
pub const BROKEN_GOAL: u8 = 14;

/// A name stands twice in the pairs of a line, or the variable has a pending observation.
pub const REPEATED_PAIR: u8 = 15;

/// The variable is mirrored.
pub const MIRRORED: u8 = 16;

/// The input ends before the script.
pub const ENDS_EARLY: u8 = 17;

/// The line is too long.
pub const LONG_LINE: u8 = 18;

/// There are too many lines.
pub const TOO_MANY_LINES: u8 = 19;

/// Repairs lead in a ring.
pub const REPAIR_CYCLE: u8 = 21;

/// The formula has too many prime implicants.
pub const MANY: u8 = 22;

/// A block ends that was not begun, or is not ended.
pub const UNMATCHED: u8 = 23;
