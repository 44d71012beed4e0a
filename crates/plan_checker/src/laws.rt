//! What verdicts say of a printed tick.

ghost use Rattle.plan_checker.specs.VerdictLaws.{VerdictLaws};

/// A printed tick has one verdict, and a no has one of nine reasons. A tick of another number is a wrong line, whatever else is wrong, and
/// what gets a yes shows holding exactly while the executive is holding.
#[tactic(auto, using(crate::proofs::VerdictLaws::verdict_laws))]
pub fn verdicts_are_one()
    ensures { VerdictLaws }
{}
