//! What `run` prints is what its input's document says, and the fixed trace of it.

ghost use Rattle.run_form.specs.RunLaws.{DocumentsAreOne, RunsAreTold, RunsAreTraced};

/// An input says one thing: one model, one list of events, and one end.
#[tactic(auto, using(crate::proofs::DocumentsAreOne::documents_are_one))]
pub fn documents_are_one()
    ensures { DocumentsAreOne }
{}

/// What the machine prints for an input is what a run says of it, and the other way round.
#[tactic(auto, using(crate::proofs::RunsTold::runs_are_told))]
pub fn runs_are_told()
    ensures { RunsAreTold }
{}

/// What a run prints is the fixed trace of its input.
#[tactic(auto, using(crate::proofs::TraceOfRun::runs_are_traced))]
pub fn runs_are_traced()
    ensures { RunsAreTraced }
{}
