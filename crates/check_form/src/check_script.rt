//! The script of an input for `check`: its events are kept up to the line `trace`, and not made.

ghost use Rattle.std.specs.Prelude.{◌≡◌, IfOk, IfSome, OnOk};
ghost use Rattle.cca_base.specs.Prelude.{MayCome};
ghost use Rattle.script_reader.specs.EventLines.{AnswersAs, event_line};
ghost use Rattle.trace_laws.specs.Events.{PendingAfter};
ghost use Rattle.check_form.specs.CheckMachine.{FitsScript, script_item};
ghost use Rattle.check_form.specs.CheckScript.{is_trace_line, no_events, with_event};
ghost use Rattle.check_form.specs.CheckStages.{KeepsScript, script_of};

use crate::item::CheckItem;
use cca_base::{Event, Model, Stop};
use script_reader::{NamedModel, read_named_event};
use std::alloc::{AllocError, Global};
use std::collections::VecDeque;
use text_base::{Kind, TokenFault, is_lexeme, tokens};
use trace_laws::Known;

/// The events of a script so far, and what they leave pending and mirrored.
#[derive(Debug, Drop)]
pub struct ScriptEvents {
    pub events: VecDeque<Event>,
    pub known: Known,
}

/// Whether the only token of a line is the word `trace`. The error is out of memory.
#[tactic(auto, unfolding(crate::specs::CheckScript::is_trace_line))]
fn is_trace_line(alloc: Global, line: &[u8]) -> Result<bool, AllocError>
    ensures { IfOk result (λ is. is ≡ is_trace_line line.now) }
{
    match tokens(alloc, line) {
        Ok(tokens) => match tokens.as_slice() {
            [token] => Ok(is_lexeme(token, Kind::Word, b"trace")),
            _ => Ok(false),
        },
        Err(TokenFault::Bad(_)) => Ok(false),
        Err(TokenFault::Memory) => Err(AllocError),
    }
}

impl ScriptEvents {
    /// Before the first line of a script.
    pub fn new(alloc: Global) -> ScriptEvents
        ensures { script_of result ≡ no_events }
    {
        ScriptEvents {
            events: VecDeque::new(alloc),
            known: Known::nothing(alloc),
        }
    }

    /// Keeps an event. The error is out of memory.
    pub fn keep(&mut self, alloc: Global, model: &Model, event: Event) -> Result<(), AllocError>
        requires may_come { MayCome model.now (script_of self.old).pending
            (script_of self.old).mirrored event }
        requires keeps { KeepsScript model.now (script_of self.old) }
        ensures event { OnOk result ((after : _)
            × PendingAfter (script_of self.old).pending event after
            × (script_of self.new ≡ with_event (script_of self.old) event after)) }
        ensures keeps { KeepsScript model.now (script_of self.new) }
    {
        let known = self.known.after(alloc, model, &event)?;
        self.events.push_back(event)?;
        self.known = known;
        Ok(())
    }

    /// What a line of the script asks for.
    pub fn read(
        &self,
        alloc: Global,
        named: NamedModel<'_>,
        line: &[u8],
    ) -> Result<Option<CheckItem>, Stop>
        ensures answer { AnswersAs result (script_item (is_trace_line line.now)
            (event_line named.entry (script_of self.now).pending (script_of self.now).mirrored
            line.now)) }
        ensures fits { IfOk result (λ item. IfSome item
            (FitsScript named.entry (script_of self.now))) }
    {
        if is_trace_line(alloc, line)? {
            return Ok(Some(CheckItem::Trace));
        }
        let Known { pending, mirrored } = &self.known;
        match read_named_event(alloc, line, named, pending, *mirrored) {
            Ok(Some(event)) => Ok(Some(CheckItem::Keeps(event))),
            Ok(None) => Ok(None),
            Err(stop) => Err(stop),
        }
    }
}
