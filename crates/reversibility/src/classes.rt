//! For each component the modes that have a way back around a state, and which components are mendable.

ghost use Rattle.std.specs.Prelude.{◌≡◌, ◌↔◌, ◌<◌, IsTrue, IfOk, length, slice_index};
ghost use Rattle.cca_base.specs.Prelude.{is_set, IsState};
ghost use Rattle.reach_laws.specs.Classes.{Covers, Stands};
ghost use Rattle.reversibility.specs.Chains.{AreOpenChains};
ghost use Rattle.reversibility.specs.ClassParts.{IsClasses, CoversState, in_row};
ghost use Rattle.reversibility.specs.Promises.{IsMendable, IsLost, IsEmptySet, IsReachOf, AllowsInside, MendsInside, StaysInside, StandsAt, StandsByChain};

use crate::open::open_chain;
use crate::paths::Paths;
use crate::taking::{Taken, take_all};
use cca_base::{Compiled, List, State, ValueSet};
use std::alloc::{AllocError, Global};
use std::rc::Rc;

/// For each component the modes that open moves join both ways around the base.
#[derive(Debug, Drop)]
pub struct Classes {
    compiled: Rc<Compiled>,
    base: State,
    taken: Taken,
    chains: List<ValueSet>,
}

impl std::marker::Model for Classes {
    ghost use Rattle.reversibility.specs.ClassParts.{ClassParts};

    ghost Value = { ClassParts };

    ghost use Rattle.cca_base.specs.Prelude.{model_codes};

    ghost coded = { Prim.hlevel model_codes };

    ghost use Rattle.reversibility.specs.ClassParts.{IsClasses};

    ghost view = { λ c. record {
      compiled = c.compiled.value;
      base = c.base.modes;
      rows = c.taken.rows;
      chains = c.chains;
      mendable = c.taken.mendable;
    } };

    ghost invariant = { λ c. IsClasses (record {
      compiled = c.compiled.value;
      base = c.base.modes;
      rows = c.taken.rows;
      chains = c.chains;
      mendable = c.taken.mendable;
    }) };
}

/// Writes the broken modes of each component's open chain.
fn write_chains(compiled: &Compiled, rows: &[ValueSet], base: &State, chains: &mut List<ValueSet>)
    requires rows { length rows.now ≡ length compiled.now.model.components }
    requires base { IsState compiled.now.model base.now.modes }
    requires full { length chains.old ≡ length rows.now }
    ensures full { length chains.new ≡ length rows.now }
    ensures each { AreOpenChains compiled.now.model base.now.modes (in_row rows.now) chains.new
        (length rows.now) }
{
    let _model = compiled.model();
    for c in 0..rows.len() {
        let chain = open_chain(compiled, rows, c as u16, *base.modes.get(c));
        chains.set(c, chain);
    }
}

/// Writes the modes of another state of as many components.
fn write_state(state: &mut State, other: &State)
    requires { length state.old.modes ≡ length other.now.modes }
    ensures { state.new.modes ≡ other.now.modes }
{
    for c in 0..other.modes.len() {
        state.modes.set(c, *other.modes.get(c));
    }
}

impl Classes {
    /// The classes around a state. The error is out of memory.
    pub fn of(alloc: Global, compiled: &Rc<Compiled>, state: &State) -> Result<Classes, AllocError>
        requires { IsState compiled.now.value.model state.now.modes }
        ensures compiled { IfOk result (λ c. c.compiled ≡ compiled.now.value) }
        ensures base { IfOk result (λ c. c.base ≡ state.now.modes) }
        ensures covered { IfOk result (λ c. CoversState c state.now.modes) }
    {
        let count = compiled.model().components().len();
        let mut paths = Paths::with_room(alloc)?;
        let mut taken = Taken::with_room(alloc, count)?;
        take_all(compiled, state, &mut taken, &mut paths);
        let mut chains = List::of(vec![in alloc; ValueSet::empty(); count]?);
        write_chains(compiled, taken.rows.as_slice(), state, &mut chains);
        Ok(Classes {
            compiled: compiled.clone()?,
            base: state.copy(alloc)?,
            taken,
            chains,
        })
    }

    /// Other classes with the same values. The error is out of memory.
    pub fn copy(&self, alloc: Global) -> Result<Classes, AllocError>
        ensures { IfOk result (λ c. c ≡ self.now) }
    {
        Ok(Classes {
            compiled: self.compiled.clone()?,
            base: self.base.copy(alloc)?,
            taken: Taken {
                rows: self.taken.rows.copy(alloc)?,
                mendable: self.taken.mendable.copy(alloc)?,
            },
            chains: self.chains.copy(alloc)?,
        })
    }

    /// Takes the classes around another state in place of these. It takes no memory.
    pub fn renew(&mut self, state: &State, paths: &mut Paths)
        requires { IsState self.old.compiled.model state.now.modes }
        ensures compiled { self.new.compiled ≡ self.old.compiled }
        ensures base { self.new.base ≡ state.now.modes }
        ensures covered { CoversState self.new state.now.modes }
    {
        self.taken.clear();
        take_all(&self.compiled, state, &mut self.taken, paths);
        let rows = self.taken.rows.as_slice();
        write_chains(&self.compiled, rows, state, &mut self.chains);
        write_state(&mut self.base, state);
    }

    /// What the classes are of.
    pub fn compiled(&self) -> &Compiled
        ensures value { result.now ≡ self.now.compiled }
        ensures classes { IsClasses self.now }
    {
        &self.compiled
    }

    /// The state around which they are taken.
    pub fn base(&self) -> &State
        ensures value { result.now.modes ≡ self.now.base }
        ensures classes { IsClasses self.now }
    {
        &self.base
    }

    /// The modes of a component's class.
    pub fn class(&self, c: u16) -> ValueSet
        requires { c < length self.now.compiled.model.components }
        ensures value { result ≡ slice_index self.now.rows c }
        ensures reach { IsReachOf self.now c result }
        ensures empty { IsEmptySet result ↔ IsLost self.now c }
        ensures classes { IsClasses self.now }
    {
        *self.taken.rows.get(c as usize)
    }

    /// The sets of all components.
    pub fn rows(&self) -> &[ValueSet]
        ensures value { result.now ≡ self.now.rows }
        ensures classes { IsClasses self.now }
    {
        self.taken.rows.as_slice()
    }

    /// The broken modes of each component's open chain.
    pub fn chains(&self) -> &[ValueSet]
        ensures value { result.now ≡ self.now.chains }
        ensures classes { IsClasses self.now }
    {
        self.chains.as_slice()
    }

    /// Whether the component may stand in the mode where the classes cover a state.
    pub fn stands(&self, component: u16, mode: u8) -> bool
        requires { component < length self.now.compiled.model.components }
        ensures value { IsTrue result
            ↔ Stands self.now.compiled.model self.now.base (in_row self.now.rows) component mode }
        ensures mode { IsTrue result ↔ StandsAt self.now component mode }
        ensures classes { IsClasses self.now }
    {
        self.taken.rows.get(component as usize).has(mode)
            || self.chains.get(component as usize).has(mode)
    }

    /// Whether the component is broken in the base, and can be mended.
    pub fn mendable(&self, c: u16) -> bool
        requires { c < length self.now.compiled.model.components }
        ensures value { result ≡ is_set self.now.mendable c }
        ensures mendable { IsTrue result ↔ IsMendable self.now c }
        ensures classes { IsClasses self.now }
    {
        *self.taken.mendable.get(c as usize)
    }

    /// Whether each component of the state stands in its class or in a broken mode of its open chain.
    pub fn covers(&self, state: &State) -> bool
        requires { IsState self.now.compiled.model state.now.modes }
        ensures value { IsTrue result
            ↔ Covers self.now.compiled.model self.now.base (in_row self.now.rows) state.now.modes }
        ensures modes { IsTrue result ↔ StandsByChain self.now state.now.modes }
        ensures allowed { IsTrue result → AllowsInside self.now state.now.modes }
        ensures mended { IsTrue result → MendsInside self.now state.now.modes }
        ensures later { IsTrue result → StaysInside self.now state.now.modes }
    {
        for c in 0..self.taken.rows.len() {
            if !self.stands(c as u16, *state.modes.get(c)) {
                return false;
            }
        }
        true
    }
}
