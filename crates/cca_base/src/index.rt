//! An index of a model's moves, which spares walks over all of them: the moves of each command and of each component, and
//! the mode that the repairs of each mode lead to. It grows with the model.

ghost use Rattle.std.specs.Prelude.{◌≡◌, [], ◌<◌, ◌-◌, length, slice_index_or, slice_set, take, None, OnOk, OnErr};
ghost use Rattle.cca_base.specs.MoveIndex.{SameRows, HasComponentMore, HasCommandMore, HasMoveMore, with_number_at};

use crate::list::List;
use crate::model::Move;
use std::alloc::{AllocError, Global};

/// The moves of each command and component by number, and what repairs lead to.
#[derive(Debug, Drop)]
pub(crate) struct MoveIndex {
    alloc: Global,
    /// Per command the numbers of its moves, rising.
    pub by_command: Vec<List<u16>>,
    /// Per component the numbers of its moves, rising.
    pub by_component: Vec<List<u16>>,
    /// Per component, for each of its modes, the mode that its repairs lead to.
    pub next: Vec<List<Option<u8>>>,
}

/// Puts a number behind the others of a row. The error is out of memory.
fn put(rows: &mut Vec<List<u16>>, at: usize, number: u16) -> Result<(), AllocError>
    requires { at < length rows.old.items }
    ensures ok { OnOk result (rows.new.items ≡ with_number_at rows.old.items at number) }
    ensures err { OnErr result (rows.new.items ≡ rows.old.items) }
{
    rows[at].push(number)
}

/// Takes the last number of a row away.
fn take_last(rows: &mut Vec<List<u16>>, at: usize)
    requires within { at < length rows.old.items }
    requires some { 0 < length (slice_index_or rows.old.items at []) }
    ensures { rows.new.items ≡ slice_set rows.old.items at
        (take (length (slice_index_or rows.old.items at []) - 1)
        (slice_index_or rows.old.items at [])) }
{
    rows[at].take_back();
}

impl MoveIndex {
    /// The index of a model without any part.
    pub fn empty(alloc: Global) -> MoveIndex
        ensures by_command { result.by_command.items ≡ [] }
        ensures by_component { result.by_component.items ≡ [] }
        ensures next { result.next.items ≡ [] }
    {
        MoveIndex {
            alloc,
            by_command: Vec::new(alloc),
            by_component: Vec::new(alloc),
            next: Vec::new(alloc),
        }
    }

    /// Takes in a component of so many modes, which has no moves yet. The error is out of memory.
    pub fn add_component(&mut self, modes: usize) -> Result<(), AllocError>
        ensures ok { OnOk result (HasComponentMore modes self.old self.new) }
        ensures err { OnErr result (SameRows self.old self.new) }
    {
        let row = List::of(vec![in self.alloc; None; modes]?);
        self.by_component.push(List::new(self.alloc))?;
        match self.next.push(row) {
            Ok(()) => Ok(()),
            Err(e) => {
                self.by_component.pop();
                Err(e.into())
            }
        }
    }

    /// Takes in a command, which no move has yet. The error is out of memory.
    pub fn add_command(&mut self) -> Result<(), AllocError>
        ensures ok { OnOk result (HasCommandMore self.old self.new) }
        ensures err { OnErr result (SameRows self.old self.new) }
    {
        self.by_command.push(List::new(self.alloc))?;
        Ok(())
    }

    /// Takes the last command's row away, where there is one.
    pub fn take_back_command(&mut self)
        ensures by_command { self.new.by_command.items
            ≡ take (length self.old.by_command.items - 1) self.old.by_command.items }
        ensures by_component { self.new.by_component.items ≡ self.old.by_component.items }
        ensures next { self.new.next.items ≡ self.old.next.items }
    {
        self.by_command.pop();
    }

    /// The numbers of the command's moves.
    pub fn moves_by(&self, command: usize) -> &[u16]
        requires { command < length self.now.by_command.items }
        ensures { result.now ≡ slice_index_or self.now.by_command.items command [] }
    {
        self.by_command[command].as_slice()
    }

    /// The numbers of the component's moves.
    pub fn moves_of(&self, component: usize) -> &[u16]
        requires { component < length self.now.by_component.items }
        ensures { result.now ≡ slice_index_or self.now.by_component.items component [] }
    {
        self.by_component[component].as_slice()
    }

    /// The mode that the repairs of the component's mode lead to, where there are such.
    pub fn next_mode(&self, component: usize, mode: usize) -> Option<u8>
        ensures { result
            ≡ slice_index_or (slice_index_or self.now.next.items component []) mode None }
    {
        if component >= self.next.len() {
            return None;
        }
        let row = &self.next[component];
        if mode >= row.len() {
            return None;
        }
        *row.get(mode)
    }

    /// Takes in the next move of a model, which has this number. The error is out of memory.
    pub fn add_move(&mut self, x: &Move, number: u16) -> Result<(), AllocError>
        requires command { x.now.command < length self.old.by_command.items }
        requires component { x.now.component < length self.old.by_component.items }
        requires row { x.now.component < length self.old.next.items }
        requires mode { x.now.source < length
            (slice_index_or self.old.next.items x.now.component []) }
        ensures ok { OnOk result (HasMoveMore number x.now self.old self.new) }
        ensures err { OnErr result (SameRows self.old self.new) }
    {
        let command = x.command as usize;
        let component = x.component as usize;
        put(&mut self.by_command, command, number)?;
        if let Err(e) = put(&mut self.by_component, component, number) {
            take_last(&mut self.by_command, command);
            return Err(e);
        }
        if x.repair {
            self.next[component].set(x.source as usize, Some(x.target));
        }
        Ok(())
    }
}
