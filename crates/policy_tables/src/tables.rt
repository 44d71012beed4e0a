//! The tables of all components, and what is read in them.

ghost use Rattle.std.specs.Prelude.{◌≡◌, ◌+◌, ◌⊎◌, ◌↔◌, ◌<◌, ℕ, [], IsTrue, IfOk, true, Some, length, slice_index, slice_index_or, slice_get};
ghost use Rattle.cca_base.specs.Flags.{IsSet};
ghost use Rattle.cca_base.specs.Prelude.{HasMode, IsState};
ghost use Rattle.reach_laws.specs.Cells.{cell_at, IsCell};
ghost use Rattle.reach_laws.specs.Classes.{Stands};
ghost use Rattle.reversibility.specs.ClassParts.{CoversState, in_row};
ghost use Rattle.policy_tables.specs.Codes.{AreSorted, IsCode, cell_of, cell_read};
ghost use Rattle.policy_tables.specs.Filling.{AreFilledTo, AreRightCells, HasPlaces, HasRoom};
ghost use Rattle.policy_tables.specs.Tables.{IsTables, IsChoiceFrom};

use crate::code::{CellRef, Code};
use crate::filling::{Work, write_cells};
use crate::keeping::flag_kept;
use crate::leaving::Leaving;
use crate::ways::sorted_ways;
use cca_base::{Cube, List, Model, State, Steps};
use reversibility::{Classes, Paths};
use std::alloc::{AllocError, Global};
use std::mem::swap;
use std::sync::ledger::Ledger;

/// For each component and each two of its modes, what leads it from the one to the other.
#[derive(Debug, Drop)]
pub struct Tables {
    classes: Classes,
    /// Classes around another state: those around the next one take their place.
    spare: Classes,
    /// Of each move the prime implicants, each effects before their causes.
    ways: List<List<Cube>>,
    /// Of each component, for each two of its modes the cell.
    tables: Vec<List<Code>>,
    /// Which components' cells stay right.
    kept: List<bool>,
    work: Work,
}

impl std::marker::Model for Tables {
    ghost use Rattle.std.specs.Prelude.{map};
    ghost use Rattle.cca_base.specs.Prelude.{model_codes};
    ghost use Rattle.policy_tables.specs.Codes.{cell_of};
    ghost use Rattle.policy_tables.specs.Filling.{HasRoom};
    ghost use Rattle.policy_tables.specs.Tables.{AreTables, TableParts};

    ghost Value = { TableParts };

    ghost coded = { Prim.hlevel model_codes };

    ghost view = { λ t. record { classes = t.classes; cells = map (map (cell_of t.ways)) t.tables.items } };

    ghost invariant = { λ t. AreTables t.classes t.spare t.ways t.tables.items t.kept × HasRoom t.work };
}

/// A place for each two modes of each component. The error is out of memory.
fn places_of(alloc: Global, classes: &Classes) -> Result<Vec<List<Code>>, AllocError>
    ensures { IfOk result (λ v. HasPlaces classes.now v.items) }
{
    let components = classes.compiled().model().components();
    let mut tables = Vec::new(alloc);
    for c in 0..components.len() {
        let modes = components.get(c).modes.len();
        tables.push(List::of(vec![in alloc; Code::Never; modes * modes]?))?;
    }
    Ok(tables)
}

/// A flag for each component, none of them set. The error is out of memory.
fn no_flags(alloc: Global, classes: &Classes) -> Result<List<bool>, AllocError>
    ensures full { IfOk result (λ l. length l ≡ length classes.now.compiled.model.components) }
    ensures unset { IfOk result (λ l. (c : ℕ) → IsSet l c → ⊥) }
{
    Ok(List::of(vec![in alloc; false; classes.rows().len()]?))
}

/// Room in which cells are made. The error is out of memory.
fn room_for_work(alloc: Global) -> Result<Work, AllocError>
    ensures { IfOk result HasRoom }
{
    Ok(Work {
        paths: Paths::with_room(alloc)?,
        leaving: Leaving::with_room(alloc)?,
    })
}

/// What the tables of classes are made in.
#[derive(Drop)]
struct Parts {
    spare: Classes,
    ways: List<List<Cube>>,
    tables: Vec<List<Code>>,
    kept: List<bool>,
    work: Work,
}

/// Room for the tables of classes. The error is out of memory.
fn parts_of(alloc: Global, classes: &Classes) -> Result<Parts, AllocError>
    ensures same { IfOk result (λ p. p.spare.compiled ≡ classes.now.compiled) }
    ensures ways { IfOk result (λ p. AreSorted classes.now.compiled p.ways) }
    ensures places { IfOk result (λ p. HasPlaces classes.now p.tables.items) }
    ensures flags { IfOk result (λ p. length p.kept ≡ length classes.now.compiled.model.components) }
    ensures unset { IfOk result (λ p. (c : ℕ) → IsSet p.kept c → ⊥) }
    ensures room { IfOk result (λ p. HasRoom p.work) }
{
    let work = room_for_work(alloc)?;
    let kept = no_flags(alloc, classes)?;
    let ways = sorted_ways(alloc, classes.compiled())?;
    let tables = places_of(alloc, classes)?;
    let spare = classes.copy(alloc)?;
    Ok(Parts {
        spare,
        ways,
        tables,
        kept,
        work,
    })
}

/// Writes the cells of all components but of those that stay right.
fn write_tables(
    classes: &Classes,
    ways: &List<List<Cube>>,
    kept: &List<bool>,
    work: &mut Work,
    tables: &mut Vec<List<Code>>,
)
    requires ways { AreSorted classes.now.compiled ways.now }
    requires room { HasRoom work.old }
    requires places { HasPlaces classes.now tables.old.items }
    requires flags { length kept.now ≡ length classes.now.compiled.model.components }
    requires kept { (c : ℕ) → IsSet kept.now c → AreRightCells classes.now ways.now c (slice_index_or tables.old.items c []) }
    ensures filled { AreFilledTo classes.now ways.now tables.new.items (length classes.now.compiled.model.components) }
    ensures room { HasRoom work.new }
{
    for c in 0..classes.rows().len() {
        if !*kept.get(c) {
            write_cells(classes, ways, c as u16, work, &mut tables[c]);
        }
    }
}

/// The cell that a code stands for.
fn read<'a>(ways: &'a List<List<Cube>>, code: Code) -> CellRef<'a>
    requires { IsCode ways.now code }
    ensures { cell_read result ≡ cell_of ways.now code }
{
    match code {
        Code::Stay => CellRef::Stay,
        Code::Step {
            number,
            command,
            way,
            left,
        } => {
            let cube = ways.get(number as usize).get(way);
            CellRef::Step {
                move_number: number,
                command,
                cube,
                left,
            }
        }
        Code::Never => CellRef::Never,
    }
}

impl Tables {
    /// The tables of classes, with all the memory that they will take. Fails only when out of memory; `classes` is then dropped.
    pub fn of(alloc: Global, classes: Classes) -> Result<Tables, AllocError>
        ensures { IfOk result (λ t. t.classes ≡ classes) }
    {
        let parts = parts_of(alloc, &classes)?;
        Ok(Tables::filled(
            classes,
            parts.spare,
            parts.ways,
            parts.tables,
            parts.kept,
            parts.work,
        ))
    }

    /// The tables of classes, in the room that was made for them.
    fn filled(
        classes: Classes,
        spare: Classes,
        ways: List<List<Cube>>,
        mut tables: Vec<List<Code>>,
        kept: List<bool>,
        mut work: Work,
    ) -> Tables
        requires same { spare.compiled ≡ classes.compiled }
        requires ways { AreSorted classes.compiled ways }
        requires places { HasPlaces classes tables.items }
        requires flags { length kept ≡ length classes.compiled.model.components }
        requires unset { (c : ℕ) → IsSet kept c → ⊥ }
        requires room { HasRoom work }
        ensures { result.classes ≡ classes }
    {
        let _rows = classes.rows();
        write_tables(&classes, &ways, &kept, &mut work, &mut tables);
        Tables {
            classes,
            spare,
            ways,
            tables,
            kept,
            work,
        }
    }

    /// Takes the tables of the classes around another state in place of these. A component's cells stay where nothing that they rest
    /// on has changed. It takes no memory.
    pub fn renew(&mut self, state: &State)
        requires { IsState self.old.classes.compiled.model state.now.modes }
        ensures compiled { self.new.classes.compiled ≡ self.old.classes.compiled }
        ensures base { self.new.classes.base ≡ state.now.modes }
        ensures covers { CoversState self.new.classes state.now.modes }
    {
        self.spare.renew(state, &mut self.work.paths);
        let _compiled = self.spare.compiled();
        flag_kept(&self.classes, &self.spare, &mut self.kept);
        swap(&mut self.classes, &mut self.spare);
        write_tables(
            &self.classes,
            &self.ways,
            &self.kept,
            &mut self.work,
            &mut self.tables,
        );
    }

    /// The classes that the tables are of.
    pub fn classes(&self) -> &Classes
        ensures value { result.now ≡ self.now.classes }
        ensures tables { IsTables self.now }
    {
        &self.classes
    }

    /// The cell for a component from one mode to another. It is one step.
    pub fn look_up<L: Ledger>(&self, c: u16, from: u8, to: u8, steps: &mut Steps<L>) -> CellRef<'_>
        requires from { HasMode self.now.classes.compiled.model c from }
        requires to { HasMode self.now.classes.compiled.model c to }
        requires stands { Stands self.now.classes.compiled.model self.now.classes.base
            (in_row self.now.classes.rows) c from }
        ensures cell { IsCell self.now.classes.compiled (in_row self.now.classes.rows) c from to
            (cell_read result) }
        ensures chosen { IsChoiceFrom self.now.classes c from to (cell_read result) }
        ensures place { cell_read result
            ≡ cell_at self.now.classes.compiled.model self.now.cells c from to }
        ensures steps { steps.new ≡ steps.old + 1 }
    {
        steps.tick(); // one place is read
        let component = self.classes.compiled().model().components().get(c as usize);
        let modes = component.modes.len();
        let code = *self.tables[c as usize].get(from as usize * modes + to as usize);
        read(&self.ways, code)
    }

    /// Whether the state holds the pair, or its mode is in its component's class. It is one step.
    pub fn reaches<L: Ledger>(&self, c: u16, to: u8, state: &State, steps: &mut Steps<L>) -> bool
        requires within { c < length self.now.classes.compiled.model.components }
        requires covers { CoversState self.now.classes state.now.modes }
        ensures value { IsTrue result
            ↔ ((slice_get state.now.modes c ≡ Some to)
            ⊎ (in_row self.now.classes.rows c to ≡ true)) }
        ensures steps { steps.new ≡ steps.old + 1 }
    {
        steps.tick();
        *state.modes.get(c as usize) == to || self.classes.class(c).has(to)
    }
}
