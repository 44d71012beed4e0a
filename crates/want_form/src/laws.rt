//! What `want` prints is the target of each wish.

ghost use Rattle.want_form.specs.WantLaws.{WishesAreTold};

/// What the machine prints for an input is the text of the targets of its wishes, and the other way round.
#[tactic(auto, using(crate::proofs::WantForm::wishes_are_told))]
pub fn wishes_are_told()
    ensures { WishesAreTold }
{}
