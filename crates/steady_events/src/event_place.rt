//! A place for the event that a line of a script asks for.

ghost use Rattle.std.specs.Prelude.{◌≡◌, true, IfErr, IfOk, IsSome, Ok};
ghost use Rattle.cca_base.specs.Prelude.{stop_code, IsCompiled, MayCome};
ghost use Rattle.cca_base.specs.declared.events.Event.TheVariants.{Tick};
ghost use Rattle.executive_loop.specs.Borrowed.{event_read};
ghost use Rattle.formula_syntax.specs.Lookups.{NamesFit};
ghost use Rattle.line_forms.specs.LineMeaning.{read_into};
ghost use Rattle.script_reader.specs.EventLines.{AnswersAs, by_tokens, event_by};
ghost use Rattle.text_base.specs.Tokens.{tokens_of};

use bounded_list::BoundedList;
use cca_base::{MAX_VARIABLES, Name, Pair, Stop, Subject};
use executive_loop::{EventRef, SteadyExecutive};
use formula_syntax::NamedModel;
use indexmap::IndexMap;
use script_reader::{Asked, Context, read_event_in};
use std::alloc::{AllocError, Global};

/// An event, with room for the pairs of any. A contract sees the event.
#[derive(Debug, Drop)]
pub struct EventPlace {
    asked: Asked,
    /// The pairs of a goal or of observations.
    pairs: BoundedList<Pair>,
}

impl std::marker::Model for EventPlace {
    ghost use Rattle.std.specs.Prelude.{◌≡◌};
    ghost use Rattle.cca_base.specs.declared.events.Event.{Event};
    ghost use Rattle.cca_base.specs.declared.limits.TheConstants.{MAX_VARIABLES};
    ghost use Rattle.script_reader.specs.Asked.{event_with};

    ghost Value = { Event };

    ghost view = { λ e. event_with e.pairs.items e.asked };

    ghost invariant = { λ e. e.pairs.room ≡ MAX_VARIABLES };
}

impl EventPlace {
    /// A place, with the event of a tick. The error is out of memory.
    pub fn new(alloc: Global) -> Result<EventPlace, AllocError>
        ensures { IfOk result (λ event. event ≡ Tick) }
    {
        Ok(EventPlace {
            asked: Asked::Tick,
            pairs: BoundedList::with_room(alloc, MAX_VARIABLES)?,
        })
    }

    /// Reads one line of a script, without its LF, with what the executive has pending and mirrored: whether it asks for an event,
    /// which stands here then. A refusal has the least code that applies; where lines set and clear no goals, one that would is
    /// malformed. It takes no memory.
    pub fn read(
        &mut self,
        executive: &SteadyExecutive,
        names: &IndexMap<Name, Subject>,
        goals: bool,
        line: &[u8],
    ) -> Result<bool, Stop>
        requires fit { NamesFit names.now executive.now.compiled.model }
        ensures answer { AnswersAs (read_into self.new result) (by_tokens (event_by goals
            executive.now.compiled.model executive.now.state.pending executive.now.state.mirrored)
            (tokens_of line.now)) }
        ensures may_come { result ≡ Ok true → MayCome executive.now.compiled.model
            executive.now.state.pending executive.now.state.mirrored self.new }
        ensures no_memory { IfErr result (λ stop. IsSome (stop_code stop)) }
        ensures compiled { IsCompiled executive.now.compiled }
    {
        let context = Context {
            model: NamedModel::new(executive.compiled().model(), names),
            pending: executive.pending(),
            mirrored: executive.mirrored(),
        };
        match read_event_in(&context, goals, line, &mut self.pairs) {
            Ok(Some(asked)) => {
                self.asked = asked;
                Ok(true)
            }
            Ok(None) => Ok(false),
            Err(code) => Err(Stop::refused(code)),
        }
    }

    /// The event. Its pairs stay here.
    pub fn borrowed(&self) -> EventRef<'_>
        ensures { event_read result ≡ self.now }
    {
        match self.asked {
            Asked::Goal => EventRef::Goal(self.pairs.as_slice()),
            Asked::Clear => EventRef::Clear,
            Asked::Observe => EventRef::Observe(self.pairs.as_slice()),
            Asked::Fault(pair) => EventRef::Fault(pair),
            Asked::Mirror(v) => EventRef::Mirror(v),
            Asked::Reset => EventRef::Reset,
            Asked::Tick => EventRef::Tick,
        }
    }
}
