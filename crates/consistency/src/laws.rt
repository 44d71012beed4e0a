//! What a conflict is, without how it is found.

ghost use Rattle.consistency.specs.Conflict.{ConflictsAreMinimal, ThereIsOneConflict};

/// What is shown of a state that no world fits is a minimal clash, and there is one such cube.
pub fn conflicts_are_minimal()
    ensures minimal { ConflictsAreMinimal }
    ensures one { ThereIsOneConflict }
{}
