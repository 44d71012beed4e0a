//! Whether the lines of a tick belong to it.

ghost use Rattle.std.specs.Prelude.{◌≡◌, ◌↔◌, IsTrue};
ghost use Rattle.cca_base.specs.Prelude.{is_send, reply_of};
ghost use Rattle.plan_checker.specs.Reasons.{HasItsLines};
ghost use Rattle.plan_checker.specs.Ticks.{printed_of};

use crate::tick::Tick;
use cca_base::{Reply, Shown};
use trace_laws::Standing;

/// The reply that is shown, if there is one.
fn reply_of(shown: &Shown) -> Option<Reply>
    ensures { result ≡ reply_of shown.now }
{
    match shown {
        Shown::Estimated { reply, .. } => Some(*reply),
        Shown::Unexplained | Shown::Holding => None,
    }
}

/// Whether the reply is a command.
fn is_send(reply: Option<Reply>) -> bool
    ensures { result ≡ is_send reply }
{
    matches!(reply, Some(Reply::Send(_)))
}

/// Whether the tick's number comes next, a world comes exactly with an estimate, and a route exactly with a command.
pub(crate) fn has_its_lines(standing: &Standing, tick: &Tick) -> bool
    ensures { IsTrue result ↔ HasItsLines standing.now (printed_of tick.now) }
{
    let reply = reply_of(&tick.report.shown);
    tick.report.tick > 0
        && tick.report.tick - 1 == standing.ticks
        && tick.world.is_some() == reply.is_some()
        && tick.route.is_some() == is_send(reply)
}
