//! What a line behind the model asks for, and the place for it.

ghost use Rattle.std.specs.Prelude.{◌≡◌, [], true, IfErr, IfOk, IsSome, OnOk, Ok};
ghost use Rattle.cca_base.specs.Prelude.{stop_code, IsCompiled};
ghost use Rattle.formula_syntax.specs.Lookups.{NamesFit};
ghost use Rattle.line_forms.specs.LineMeaning.{read_into};
ghost use Rattle.script_reader.specs.EventLines.{AnswersAs};
ghost use Rattle.program_form.specs.Places.{IsComing, item_read};
ghost use Rattle.program_form.specs.ProgramMachine.{asks_event};
ghost use Rattle.program_form.specs.Sequences.{event_line};
ghost use Rattle.program_form.specs.declared.item.ProgramItem.TheVariants.{Reads};

use cca_base::{Event, List, Name, Stop, Subject};
use executive_loop::SteadyExecutive;
use indexmap::IndexMap;
use line_forms::kept_line;
use std::alloc::{AllocError, Global};
use steady_events::EventPlace;

/// What a line behind the model asks for.
#[derive(Debug, Drop)]
pub enum ProgramItem {
    /// A line of the program, which has these bytes: more of it is read.
    Reads(List<u8>),
    /// An event behind the program: it is made.
    Makes(Event),
}

/// An item, where it stands.
pub enum ItemRef<'a> {
    Reads(&'a [u8]),
    Makes(&'a EventPlace),
}

/// An item, with room for the pairs of any event.
#[derive(Debug, Drop)]
pub struct ItemPlace {
    /// Whether it is an event.
    makes: bool,
    event: EventPlace,
    line: List<u8>,
}

impl std::marker::Model for ItemPlace {
    ghost use Rattle.program_form.specs.Places.{item_in};
    ghost use Rattle.program_form.specs.declared.item.ProgramItem.{ProgramItem};

    ghost Value = { ProgramItem };

    ghost view = { λ p. item_in p.makes p.event p.line };
}

impl ItemPlace {
    /// A place, with an empty line of the program. The error is out of memory.
    pub fn new(alloc: Global) -> Result<ItemPlace, AllocError>
        ensures { IfOk result (λ item. item ≡ Reads []) }
    {
        Ok(ItemPlace {
            makes: false,
            event: EventPlace::new(alloc)?,
            line: List::new(alloc),
        })
    }

    /// Puts a line of the program here. The error is out of memory.
    pub fn keep(&mut self, alloc: Global, line: &[u8]) -> Result<(), AllocError>
        ensures { OnOk result (self.new ≡ Reads line.now) }
    {
        self.line = kept_line(alloc, line)?;
        self.makes = false;
        Ok(())
    }

    /// Reads a line behind the program, with what the executive has pending and mirrored: whether it asks for an event, which stands
    /// here then. It takes no memory.
    #[tactic(auto, unfolding(crate::specs::Sequences::event_line))]
    pub fn read(
        &mut self,
        executive: &SteadyExecutive,
        names: &IndexMap<Name, Subject>,
        line: &[u8],
    ) -> Result<bool, Stop>
        requires fit { NamesFit names.now executive.now.compiled.model }
        ensures answer { AnswersAs (read_into self.new result) (asks_event (event_line
            executive.now.compiled.model executive.now.state.pending executive.now.state.mirrored
            line.now)) }
        ensures may_come { result ≡ Ok true → IsComing executive.now.compiled.model
            executive.now.state.pending executive.now.state.mirrored self.new }
        ensures no_memory { IfErr result (λ stop. IsSome (stop_code stop)) }
        ensures compiled { IsCompiled executive.now.compiled }
    {
        self.makes = true;
        self.event.read(executive, names, false, line)
    }

    /// The item.
    pub fn get(&self) -> ItemRef<'_>
        ensures { item_read result ≡ self.now }
    {
        if self.makes {
            ItemRef::Makes(&self.event)
        } else {
            ItemRef::Reads(self.line.as_slice())
        }
    }
}
