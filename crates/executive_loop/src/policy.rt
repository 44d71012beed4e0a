//! Tables that are kept while they cover the estimate.

ghost use Rattle.std.specs.Prelude.{◌≡◌, None, IsTrue, IfOk};
ghost use Rattle.std.specs.Option.{option_map};
ghost use Rattle.cca_base.specs.Accepted.{CompiledModel};
ghost use Rattle.cca_base.specs.Prelude.{IsState};
ghost use Rattle.reversibility.specs.ClassParts.{CoversState};
ghost use Rattle.trace_laws.specs.Tables.{Takes};
ghost use Rattle.executive_loop.specs.Covering.{base_of, covers, tables_in, AreCovering, AreTablesOf};

use cca_base::{Compiled, State};
use policy_tables::Tables;
use reversibility::Classes;
use std::alloc::{AllocError, Global};
use std::rc::Rc;

/// Tables, and whether they are in use: they take all their memory when they are made, and are made anew in place.
#[derive(Debug, Drop)]
pub(crate) struct Policy {
    pub tables: Tables,
    pub in_use: bool,
}

/// Whether the tables cover the state.
fn cover(tables: &Tables, state: &State) -> bool
    requires { IsState tables.now.classes.compiled.model state.now.modes }
    ensures value { result ≡ covers tables.now state.now.modes }
    ensures covers { IsTrue result → CoversState tables.now.classes state.now.modes }
{
    tables.classes().covers(state)
}

impl Policy {
    /// Tables that are not in use yet. The error is out of memory.
    pub fn of(alloc: Global, compiled: &Rc<Compiled>, state: &State) -> Result<Policy, AllocError>
        requires { IsState compiled.now.value.model state.now.modes }
        ensures of { IfOk result (λ p. AreTablesOf compiled.now.value p.tables) }
        ensures unused { IfOk result (λ p. tables_in p ≡ None) }
    {
        let classes = Classes::of(alloc, compiled, state)?;
        let tables = Tables::of(alloc, classes)?;
        Ok(Policy {
            tables,
            in_use: false,
        })
    }

    /// The tables, where they are in use.
    pub fn get(&self) -> Option<&Tables>
        ensures { option_map (λ t. t.now) result ≡ tables_in self.now }
    {
        if self.in_use {
            Some(&self.tables)
        } else {
            None
        }
    }

    /// Leaves tables that cover the state: those that there are, or new ones in their place.
    pub fn take(&mut self, state: &State)
        requires { IsState self.old.tables.classes.compiled.model state.now.modes }
        ensures takes { Takes base_of covers (tables_in self.old) state.now.modes (tables_in self.new) }
        ensures covers { AreCovering (tables_in self.new) state.now.modes }
        ensures compiled { self.new.tables.classes.compiled ≡ self.old.tables.classes.compiled }
        ensures of { (b : CompiledModel) → AreTablesOf b self.old.tables → AreTablesOf b self.new.tables }
    {
        if self.in_use && cover(&self.tables, state) {
            return;
        }
        self.tables.renew(state);
        self.in_use = true;
    }
}
