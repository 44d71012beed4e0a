//! What `watch` prints are the answers of a tracker.

ghost use Rattle.watch_form.specs.WatchExamples.{BothPending, LinesOfValve, NothingFirst, PendingIsOfOneTick};
ghost use Rattle.watch_form.specs.WatchLaws.{CostsAreLeast, WatchIsTold};

/// What the machine prints for an input is the text of the answers of a tracker, and the other way round.
#[tactic(auto, using(crate::proofs::WatchForm::watch_is_told))]
pub fn watch_is_told()
    ensures { WatchIsTold }
{}

/// Each printed line of a window tells how many records it has, and a cost that no other trajectory over these from its anchor undercuts.
#[tactic(auto, using(crate::proofs::WatchLeast::costs_are_least))]
pub fn costs_are_least()
    ensures { CostsAreLeast }
{}

/// What lines say of answers, and what is pending.
pub fn watch_examples()
    ensures lines { LinesOfValve }
    ensures nothing { NothingFirst }
    ensures both { BothPending }
    ensures one_tick { PendingIsOfOneTick }
{}
