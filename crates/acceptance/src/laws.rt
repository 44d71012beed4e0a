//! A model is refused in one way.

ghost use Rattle.acceptance.specs.Laws.{AcceptedAreNotRefused, ThereIsOneRefusal};

/// A model is refused in one way at most, and an accepted one in none.
pub fn models_are_refused_one_way()
    ensures one { ThereIsOneRefusal }
    ensures none { AcceptedAreNotRefused }
{}
