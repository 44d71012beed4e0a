//! What the calls of a session show.

ghost use Rattle.titan_session.specs.SessionLaws.{SessionsAreRuns};

/// What was taken of a session, and what waits behind it, is what `run` prints for the lines that it was given.
#[tactic(auto, using(crate::proofs::SessionsAreRuns::sessions_are_runs))]
pub fn sessions_are_runs()
    ensures { SessionsAreRuns }
{}
