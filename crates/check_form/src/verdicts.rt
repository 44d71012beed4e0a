//! What is printed of a verdict on a trace.

ghost use Rattle.std.specs.Prelude.{◌≡◌, ◌+◌, ◌++◌, OnErr, OnOk};
ghost use Rattle.check_form.specs.Verdicts.{checked_line, no_line, reason_name};

use line_machine::Out;
use plan_checker::reasons::{ANSWER, BACK, COST, GOAL, LINE, PLAN, STEP, WORLD};
use std::alloc::{AllocError, Global};

/// The name of a reason.
fn reason_name(reason: u8) -> &'static str
    ensures { result.now ≡ reason_name reason }
{
    match reason {
        LINE => "line",
        COST => "cost",
        WORLD => "world",
        STEP => "step",
        PLAN => "plan",
        GOAL => "goal",
        BACK => "back",
        ANSWER => "answer",
        _ => "long",
    }
}

/// Appends the line of a No to the tick behind so many. The error is out of memory, and then all is as it was.
pub fn say_no(alloc: Global, ticks: u64, reason: u8, out: &mut Out) -> Result<(), AllocError>
    ensures ok { OnOk result (out.new.bytes ≡ out.old.bytes ++ no_line (ticks + 1) reason) }
    ensures err { OnErr result (out.new ≡ out.old) }
{
    let tick = u128::from(ticks) + 1;
    let name = reason_name(reason);
    let text = format!(in alloc; "no {tick} {reason} {name}\n")?;
    out.push(text.as_bytes())
}

/// Appends the line of a trace all of whose ticks got a Yes. The error is out of memory, and then all is as it was.
pub fn say_checked(alloc: Global, ticks: u64, out: &mut Out) -> Result<(), AllocError>
    ensures ok { OnOk result (out.new.bytes ≡ out.old.bytes ++ checked_line ticks) }
    ensures err { OnErr result (out.new ≡ out.old) }
{
    let text = format!(in alloc; "checked {ticks}\n")?;
    out.push(text.as_bytes())
}
