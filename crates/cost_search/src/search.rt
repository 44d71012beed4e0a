//! Best-first search: states by rising cost and then in mode order, without those that hold a cut cube.

ghost use Rattle.std.specs.Prelude.{◌≡◌, ◌<◌, ◌++◌, ◌∷◌, [], IfOk, IfSome, IsSome, IsNone, OnOk, OnErr, Some, None};
ghost use Rattle.cost_search.specs.Left.{states_left};
ghost use Rattle.cost_search.specs.Search.{IsFirstLeft, NoneLeft};
ghost use Rattle.cca_base.specs.Prelude.{AreRows};

use crate::costed::Costed;
use crate::part::Part;
use crate::queue::settle_part;
use crate::whole::all_states;
use cca_base::{Choices, Cube, List, State};
use std::alloc::{AllocError, Global};
use std::collections::BinaryHeap;
use std::marker::Model;

/// Choices of modes, given by rising cost and then in mode order, without those that hold a cut cube.
#[derive(Debug, Drop)]
pub struct Search {
    alloc: Global,
    choices: Choices,
    last: Option<Costed>,
    cuts: List<Cube>,
    parts: BinaryHeap<Part>,
}

impl Model for Search {
    ghost use Rattle.std.specs.BinaryHeap.{heap_items};
    ghost use Rattle.std.specs.Coded.{codes};
    ghost use Rattle.cost_search.specs.Search.{Searched};
    ghost use Rattle.cost_search.specs.Queue.{IsSearch};

    ghost Value = { Searched };

    ghost coded = { Prim.hlevel codes };

    ghost view = { λ s. record { rows = s.choices.rows; last = s.last; cuts = s.cuts } };

    ghost invariant = { λ s. IsSearch s.choices.rows s.last s.cuts (heap_items s.parts) };
}

impl Search {
    /// A search that has given no state and has no cut.
    pub fn of(alloc: Global, choices: Choices) -> Result<Search, AllocError>
        requires { AreRows choices.rows }
        ensures { IfOk result (λ s. s ≡ record { rows = choices.rows; last = None; cuts = [] }) }
    {
        let parts = all_states(alloc, choices.rows.as_slice())?;
        Ok(Search {
            alloc,
            choices,
            last: None,
            cuts: List::new(alloc),
            parts,
        })
    }

    /// The first state, by cost and then in mode order, that comes after the last one given and holds no cut cube. None
    /// comes exactly where there is none. The error is out of memory.
    pub fn next(&mut self) -> Result<Option<Costed>, AllocError>
        ensures some { IfOk result (λ o.
            IfSome o (λ x. IsFirstLeft self.old x.state.modes x.cost)) }
        ensures given { IfOk result (λ o.
            IfSome o (λ x. self.new ≡ record self.old { last = Some x })) }
        ensures fewer { IfOk result (λ o. IsSome o → states_left self.new < states_left self.old) }
        ensures none { IfOk result (λ o. IsNone o → NoneLeft self.old) }
        ensures stays { IfOk result (λ o. IsNone o → self.new ≡ self.old) }
        ensures err { OnErr result (self.new ≡ self.old) }
    {
        settle_part(
            self.alloc,
            self.choices.rows.as_slice(),
            &mut self.parts,
            &self.last,
            self.cuts.as_slice(),
        )?;
        let Some(first) = self.parts.peek() else {
            return Ok(None);
        };
        let cost = first.cost;
        let modes = first.modes.copy(self.alloc)?;
        let kept = first.modes.copy(self.alloc)?;
        self.last = Some(Costed {
            state: State { modes: kept },
            cost,
        });
        Ok(Some(Costed {
            state: State { modes },
            cost,
        }))
    }

    /// Cuts the states that hold the cube. The error is out of memory.
    pub fn cut(&mut self, cube: Cube) -> Result<(), AllocError>
        ensures ok { OnOk result (self.new
            ≡ record self.old { cuts = self.old.cuts ++ cube ∷ [] }) }
        ensures err { OnErr result (self.new ≡ self.old) }
    {
        self.cuts.push(cube)?;
        Ok(())
    }
}
