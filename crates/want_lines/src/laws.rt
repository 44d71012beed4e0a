//! A line asks for one thing.

ghost use Rattle.want_lines.specs.Requests.{RequestsAreOne};

/// A line asks for one thing, or is refused with one code.
#[tactic(auto, using(crate::proofs::OneRequest::requests_are_one))]
pub fn requests_are_one()
    ensures { RequestsAreOne }
{}
