//! The numbers of the reasons for a no.

ghost use Rattle.std.specs.Prelude.{◌≡◌};
ghost use Rattle.plan_checker.specs.declared.reasons.TheConstants.{LINE, COST, WORLD, STEP, PLAN, GOAL, BACK, ANSWER, LONG};

/// The line, or one that belongs to it, is missing or another.
pub const LINE: u8 = 1;

/// The estimate has no cost, or another.
pub const COST: u8 = 2;

/// The values are no world of the estimate, or don't agree with what the tick observes.
pub const WORLD: u8 = 3;

/// The command is no step.
pub const STEP: u8 = 4;

/// The plan doesn't begin with the command, or one of its commands is no step.
pub const PLAN: u8 = 5;

/// The plan's end doesn't hold the goal.
pub const GOAL: u8 = 6;

/// A command of the way back is no step, or it doesn't end in a mending of the estimate.
pub const BACK: u8 = 7;

/// The answer doesn't fit the goal, or whether the checker is holding.
pub const ANSWER: u8 = 8;

/// The plan or the way back is too long to be printed.
pub const LONG: u8 = 9;

/// The reasons by their numbers.
pub fn reasons_are_fixed()
    ensures line { LINE ≡ 1 }
    ensures cost { COST ≡ 2 }
    ensures world { WORLD ≡ 3 }
    ensures step { STEP ≡ 4 }
    ensures plan { PLAN ≡ 5 }
    ensures goal { GOAL ≡ 6 }
    ensures back { BACK ≡ 7 }
    ensures answer { ANSWER ≡ 8 }
    ensures long { LONG ≡ 9 }
{}
