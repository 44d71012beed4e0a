//! That the calls of C are calls of a session, and what they write is what `titan run` prints.

ghost use Rattle.titan_c.specs.CallLaws.{CallsAnswer, CallsLeadOn, CallsPrintRuns, NumbersOfC};

/// The calls of C are calls of a session.
#[tactic(auto, using(crate::proofs::CallsLeadOn::calls_lead_on))]
pub fn calls_lead_on()
    ensures { CallsLeadOn }
{}

/// What the calls of C wrote is what `titan run` prints of the lines that were handed over.
#[tactic(auto, using(crate::proofs::CallsPrintRuns::calls_print_runs))]
pub fn calls_print_runs()
    ensures { CallsPrintRuns }
{}

/// What a call of C answers and writes is of what the handle holds behind it, and which calls are wrong.
#[tactic(auto, using(crate::proofs::CallsAnswer::calls_answer))]
pub fn calls_answer()
    ensures { CallsAnswer }
{}

/// The numbers of `include/titan.h`.
#[tactic(auto, using(crate::proofs::CallsAnswer::numbers_of_c))]
pub fn numbers_of_c()
    ensures { NumbersOfC }
{}
