//! How large a control program may be.

ghost use Rattle.std.specs.Prelude.{◌≡◌};
ghost use Rattle.control_syntax.specs.declared.limits.TheConstants.{MAX_LINES, MAX_BLOCKS, MAX_ROUNDS};

/// The most lines with tokens between `program` and `end`.
pub const MAX_LINES: u32 = 1024;

/// The most blocks that stand open at once.
pub const MAX_BLOCKS: usize = 16;

/// The most rounds of a `repeat`; the least is 1.
pub const MAX_ROUNDS: u32 = 1000;

/// The limits by their numbers.
pub fn limits_are_fixed()
    ensures lines { MAX_LINES ≡ 1024 }
    ensures blocks { MAX_BLOCKS ≡ 16 }
    ensures rounds { MAX_ROUNDS ≡ 1000 }
{}
