//! The report of a tick as numbers.

ghost use Rattle.std.specs.Prelude.{◌≡◌};
ghost use Rattle.cca_base.specs.Trace.{command_of};
ghost use Rattle.trace_text.specs.ReportRefs.{report_read};
ghost use Rattle.model_numbers.specs.ReportNumbers.{component_of, kind_of, mode_of, nothing_yet, numbers_of, without_estimate};

use cca_base::{Model, Reply};
use trace_text::{ReportRef, ShownRef};

/// What a report tells.
#[derive(Clone, Copy, Debug, PartialEq, Eq)]
pub enum Tells {
    /// There is no report yet.
    NothingYet,
    /// A tick with an estimate.
    Estimated,
    /// A tick that nothing explains.
    Unexplained,
    /// A tick behind such a one.
    Holding,
}

/// What a tick with an estimate replies.
#[derive(Clone, Copy, Debug, PartialEq, Eq)]
pub enum ReplyKind {
    Idle,
    /// The command is sent.
    Send,
    Achieved,
    /// The component can't be reached in the mode.
    Unreachable,
}

/// The report of a tick, with numbers in place of names.
#[derive(Clone, Copy, Debug, PartialEq, Eq)]
pub struct ReportNumbers {
    /// The tick's number, from 1.
    pub tick: u64,
    /// The cost of the estimate, or 0.
    pub cost: u64,
    pub tells: Tells,
    pub reply: Option<ReplyKind>,
    /// The command that is sent.
    pub command: Option<u16>,
    /// The component that can't be reached.
    pub component: Option<u16>,
    /// The mode in which it can't be reached.
    pub mode: Option<u8>,
    /// How many components the model has, or 0 where nothing is told yet.
    pub components: usize,
}

impl ReportNumbers {
    /// What stands where there is no report.
    pub fn nothing_yet() -> ReportNumbers
        ensures { result ≡ nothing_yet }
    {
        ReportNumbers::without_estimate(0, Tells::NothingYet, 0)
    }

    /// A report of no estimate.
    fn without_estimate(tick: u64, tells: Tells, components: usize) -> ReportNumbers
        ensures { result ≡ without_estimate tick tells components }
    {
        ReportNumbers {
            tick,
            cost: 0,
            tells,
            reply: None,
            command: None,
            component: None,
            mode: None,
            components,
        }
    }
}

/// The kind of a reply.
fn kind_of(reply: Reply) -> ReplyKind
    ensures { result ≡ kind_of reply }
{
    match reply {
        Reply::Idle => ReplyKind::Idle,
        Reply::Send(_) => ReplyKind::Send,
        Reply::Achieved => ReplyKind::Achieved,
        Reply::Unreachable(..) => ReplyKind::Unreachable,
    }
}

/// The command that a reply sends.
fn command_of(reply: Reply) -> Option<u16>
    ensures { result ≡ command_of reply }
{
    match reply {
        Reply::Send(command) => Some(command),
        _ => None,
    }
}

/// The component that can't be reached.
fn component_of(reply: Reply) -> Option<u16>
    ensures { result ≡ component_of reply }
{
    match reply {
        Reply::Unreachable(component, _) => Some(component),
        _ => None,
    }
}

/// The mode that can't be reached.
fn mode_of(reply: Reply) -> Option<u8>
    ensures { result ≡ mode_of reply }
{
    match reply {
        Reply::Unreachable(_, mode) => Some(mode),
        _ => None,
    }
}

/// The numbers of a report. It takes no memory.
pub fn numbers(model: &Model, report: &ReportRef) -> ReportNumbers
    ensures { result ≡ numbers_of model.now (report_read report.now) }
{
    let components = model.components().len();
    match &report.shown {
        ShownRef::Estimated { cost, reply, .. } => ReportNumbers {
            tick: report.tick,
            cost: *cost,
            tells: Tells::Estimated,
            reply: Some(kind_of(*reply)),
            command: command_of(*reply),
            component: component_of(*reply),
            mode: mode_of(*reply),
            components,
        },
        ShownRef::Unexplained => {
            ReportNumbers::without_estimate(report.tick, Tells::Unexplained, components)
        }
        ShownRef::Holding => {
            ReportNumbers::without_estimate(report.tick, Tells::Holding, components)
        }
    }
}
