//! The trace of an input for `check`: a checker follows the script's events, and judges each tick by the lines that are printed of it.

ghost use Rattle.std.specs.Prelude.{◌≡◌, [], IfOk, OnOk, None};
ghost use Rattle.std.specs.Option.{option_map};
ghost use Rattle.cca_base.specs.Prelude.{start, HasWorlds, IsCompiled};
ghost use Rattle.consistency.specs.Worlds.{AreWorldsOf};
ghost use Rattle.byte_buffer.specs.Outs.{Appended, IsFront};
ghost use Rattle.model_form.specs.Answers.{answer};
ghost use Rattle.plan_checker.specs.Standing.{FitsModel};
ghost use Rattle.check_form.specs.CheckMachine.{trace_closing};
ghost use Rattle.check_form.specs.CheckStages.{KeepsCheck, MayComeBehind, MayComeInTurn, MayJudge, SaysOf, trace_of, waiting};
ghost use Rattle.check_form.specs.CheckTrace.{ByLines, ComesTo, SaysLine, TraceLeads, before_tick};
ghost use Rattle.check_form.specs.TickLines.{Whole, printed_of};

use crate::tick_lines::{PrintedTick, TickLines, TickSoFar, next_lines};
use crate::verdicts::{say_checked, say_no};
use cca_base::{Event, Model};
use consistency::Worlds;
use line_machine::{End, Out};
use plan_checker::reasons::LINE;
use plan_checker::{Checker, Verdict};
use std::alloc::{AllocError, Global};
use std::collections::VecDeque;
use std::mem;
use trace_text::{LineFault, TraceLine, read_line};

/// A checker that waits for the lines of the next tick.
#[derive(Drop)]
pub struct TraceCheck {
    /// The clauses of the model's rules, for all ticks.
    pub worlds: Worlds,
    /// It has made the events before the next tick.
    pub checker: Checker,
    /// The events behind that tick, if one comes.
    pub behind: Option<VecDeque<Event>>,
    /// What was read of its lines.
    pub lines: TickSoFar,
}

/// Makes the events up to the next tick, and answers those behind it, if there is one.
fn advance(
    checker: &mut Checker,
    model: &Model,
    mut events: VecDeque<Event>,
) -> Result<Option<VecDeque<Event>>, AllocError>
    requires fits { FitsModel model.now checker.old }
    requires come { MayComeInTurn model.now checker.old.pending checker.old.mirrored events.items }
    ensures comes { IfOk result (λ behind.
        ComesTo model.now checker.old events.items (before_tick checker.new (option_map (λ q.
        q.items) behind))) }
    ensures fits { FitsModel model.now checker.new }
    ensures behind { IfOk result (λ behind.
        MayComeBehind model.now checker.new (option_map (λ q. q.items) behind)) }
{
    'events: while let Some(event) = events.pop_front() {
        if matches!(event, Event::Tick) {
            return Ok(Some(events));
        }
        checker.event(model, &event)?;
    }
    Ok(None)
}

/// The line of a trace, if the line is the text of one. The error is out of memory.
fn read(alloc: Global, model: &Model, line: &[u8]) -> Result<Option<TraceLine>, AllocError>
    ensures { IfOk result (SaysLine model.now line.now) }
{
    match read_line(alloc, model, line) {
        Ok(value) => Ok(Some(value)),
        Err(LineFault::NotALine) => Ok(None),
        Err(LineFault::Memory) => Err(AllocError),
    }
}

impl TraceCheck {
    /// Before the first line of a trace of these events.
    pub fn open(
        alloc: Global,
        model: &Model,
        events: VecDeque<Event>,
    ) -> Result<TraceCheck, AllocError>
        requires come { MayComeInTurn model.now [] 0 events.items }
        ensures comes { IfOk result (λ t.
            ComesTo model.now (start model.now 0) events.items (trace_of t)) }
        ensures keeps { IfOk result (KeepsCheck model.now) }
    {
        let worlds = Worlds::of(alloc, model)?;
        let mut checker = Checker::open(alloc, model)?;
        let behind = advance(&mut checker, model, events)?;
        Ok(TraceCheck {
            worlds,
            checker,
            behind,
            lines: TickSoFar::Nothing,
        })
    }

    /// Goes on to the next tick.
    fn go_on(&mut self, model: &Model, events: VecDeque<Event>) -> Result<(), AllocError>
        requires clauses { AreWorldsOf model.now self.old.worlds }
        requires fits { FitsModel model.now self.old.checker }
        requires moved { self.old.behind ≡ None }
        requires come { MayComeInTurn model.now self.old.checker.pending self.old.checker.mirrored
            events.items }
        ensures comes { OnOk result (ComesTo model.now self.old.checker events.items
            (trace_of self.new)) }
        ensures keeps { KeepsCheck model.now self.new }
    {
        self.behind = advance(&mut self.checker, model, events)?;
        self.lines = TickSoFar::Nothing;
        Ok(())
    }

    /// Judges a tick, behind which these events come, and appends what is printed. The error is out of memory.
    fn judge(
        &mut self,
        alloc: Global,
        model: &Model,
        tick: &PrintedTick,
        events: VecDeque<Event>,
        out: &mut Out,
    ) -> Result<Option<End>, AllocError>
        requires may { MayJudge model.now self.old events.items }
        ensures says { IfOk result (λ end. Appended
            (SaysOf (ByLines (Whole (printed_of tick.now)) model.now (waiting self.old events.items)
            events.items) (waiting self.old events.items) (trace_of self.new) end)
            out.old out.new) }
        ensures keeps { KeepsCheck model.now self.new }
        ensures front { IsFront out.old out.new }
    {
        let ticks = self.checker.ticks();
        let verdict = self.checker.check_tick_by(
            model,
            &self.worlds,
            &tick.report,
            tick.world.as_ref(),
            tick.route.as_ref(),
        )?;
        match verdict {
            Verdict::Yes => {
                self.go_on(model, events)?;
                Ok(None)
            }
            Verdict::No(reason) => {
                say_no(alloc, ticks, reason, out)?;
                Ok(Some(End::Rejected))
            }
        }
    }

    /// Takes a line of a tick behind which these events come, and appends what is printed. The error is out of memory.
    fn tick_line(
        &mut self,
        alloc: Global,
        model: &Model,
        line: &[u8],
        events: VecDeque<Event>,
        out: &mut Out,
    ) -> Result<Option<End>, AllocError>
        requires may { MayJudge model.now self.old events.items }
        ensures says { IfOk result (λ end. Appended
            (SaysOf (TraceLeads model.now (waiting self.old events.items) line.now)
            (waiting self.old events.items) (trace_of self.new) end) out.old out.new) }
        ensures keeps { KeepsCheck model.now self.new }
        ensures front { IsFront out.old out.new }
    {
        let ticks = self.checker.ticks();
        let Some(value) = read(alloc, model, line)? else {
            say_no(alloc, ticks, LINE, out)?;
            return Ok(Some(End::Rejected));
        };
        let lines = mem::replace(&mut self.lines, TickSoFar::Nothing);
        match next_lines(ticks, lines, value) {
            TickLines::NotNext => {
                say_no(alloc, ticks, LINE, out)?;
                Ok(Some(End::Rejected))
            }
            TickLines::More(lines) => {
                self.lines = lines;
                self.behind = Some(events);
                Ok(None)
            }
            TickLines::Whole(tick) => self.judge(alloc, model, &tick, events, out),
        }
    }

    /// Takes a line of the trace, and appends what is printed. The error is out of memory.
    pub fn line(
        &mut self,
        alloc: Global,
        model: &Model,
        line: &[u8],
        out: &mut Out,
    ) -> Result<Option<End>, AllocError>
        requires worlds { HasWorlds model.now }
        requires keeps { KeepsCheck model.now self.old }
        ensures says { IfOk result (λ end. Appended
            (SaysOf (TraceLeads model.now (trace_of self.old) line.now) (trace_of self.old)
            (trace_of self.new) end) out.old out.new) }
        ensures keeps { KeepsCheck model.now self.new }
        ensures front { IsFront out.old out.new }
    {
        match mem::replace(&mut self.behind, None) {
            Some(events) => self.tick_line(alloc, model, line, events, out),
            None => {
                say_no(alloc, self.checker.ticks(), LINE, out)?;
                Ok(Some(End::Rejected))
            }
        }
    }

    /// Takes the end of the trace, and appends what is printed. The error is out of memory.
    pub fn close(&self, alloc: Global, out: &mut Out) -> Result<End, AllocError>
        ensures closes { IfOk result (λ end. Appended
            (λ text. answer end text ≡ trace_closing (trace_of self.now).behind (trace_of self.now))
            out.old out.new) }
        ensures front { IsFront out.old out.new }
    {
        let ticks = self.checker.ticks();
        match &self.behind {
            Some(_) => {
                say_no(alloc, ticks, LINE, out)?;
                Ok(End::Rejected)
            }
            None => {
                say_checked(alloc, ticks, out)?;
                Ok(End::Ended)
            }
        }
    }
}
