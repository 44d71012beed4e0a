//! Pairs of a component or variable with a value, and sets of them that name each once.

ghost use Rattle.std.specs.Prelude.{◌≡◌, [], ◌∷◌, ◌++◌, ◌<◌, ◌↔◌, IsTrue, length, slice_get, Some, IfOk, OnOk, OnErr};
ghost use Rattle.cca_base.specs.Cube.{IsCube, Lacks};
ghost use Rattle.cca_base.specs.State.{Extends};

use smallvec::SmallVec;
use std::alloc::{AllocError, Global};
use std::marker::Model;

/// A component with a mode, or a variable with a value.
#[derive(Clone, Copy, Debug, Default, PartialEq, Eq)]
pub struct Pair {
    /// The number of the component or the variable.
    pub item: u16,
    /// The number of its mode or its value.
    pub value: u8,
}

/// Pairs of components and modes, at most one of each component.
#[derive(Debug, Drop)]
pub struct Cube {
    pairs: SmallVec<Pair, 4, Global>,
}

impl Model for Cube {
    ghost use Rattle.std.specs.Prelude.{List};
    ghost use Rattle.cca_base.specs.declared.cube.Pair.{Pair};

    ghost Value = { List Pair };

    ghost use Rattle.cca_base.specs.Cube.{IsCube};

    ghost view = { λ c. c.pairs.items };

    ghost invariant = { λ c. IsCube c.pairs.items };
}

impl Cube {
    /// The cube without a pair, which takes no memory.
    pub fn new(alloc: Global) -> Cube
        ensures { result ≡ [] }
    {
        Cube {
            pairs: SmallVec::new(alloc),
        }
    }

    /// How many pairs there are.
    pub fn len(&self) -> usize
        ensures { result ≡ length self.now }
    {
        self.pairs.len()
    }

    /// The pair at a place, counted from 0.
    pub fn get(&self, at: usize) -> &Pair
        requires { at < length self.now }
        ensures { slice_get self.now at ≡ Some result.now }
    {
        &self.pairs[at]
    }

    /// The pairs, in the order in which they were pushed.
    pub fn as_slice(&self) -> &[Pair]
        ensures pairs { result.now ≡ self.now }
        ensures cube { IsCube self.now }
    {
        self.pairs.as_slice()
    }

    /// Puts a pair behind the others. The error is out of memory.
    pub fn push(&mut self, pair: Pair) -> Result<(), AllocError>
        requires { Lacks pair.item self.old }
        ensures ok { OnOk result (self.new ≡ self.old ++ pair ∷ []) }
        ensures err { OnErr result (self.new ≡ self.old) }
    {
        self.pairs.push(pair)?;
        Ok(())
    }

    /// Whether each pair's mode is the one that stands at its component's place.
    pub fn stands_in(&self, modes: &[u8]) -> bool
        ensures { IsTrue result ↔ Extends modes.now self.now }
    {
        for pair in self.as_slice() {
            let item = pair.item as usize;
            if item >= modes.len() || modes[item] != pair.value {
                return false;
            }
        }
        true
    }

    /// A cube of the same pairs. The error is out of memory.
    pub fn copy(&self, alloc: Global) -> Result<Cube, AllocError>
        ensures { IfOk result (λ c. c ≡ self.now) }
    {
        let pairs = SmallVec::from_slice(alloc, self.pairs.as_slice())?;
        Ok(Cube { pairs })
    }
}
