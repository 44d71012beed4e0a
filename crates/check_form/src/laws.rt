//! What `check` prints.

ghost use Rattle.check_form.specs.CheckForm.{ChecksAreJudged};

/// What the machine prints for an input is what is printed of how the input is judged, and the other way round.
#[tactic(auto, using(crate::proofs::CheckTexts::checks_are_judged))]
pub fn checks_are_judged()
    ensures { ChecksAreJudged }
{}
