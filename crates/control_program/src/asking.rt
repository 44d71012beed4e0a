//! What a turn asks the estimate.

ghost use Rattle.std.specs.Prelude.{◌≡◌, ◌<◌, ◌↔◌, map, All, IsTrue};
ghost use Rattle.std.specs.List.{AllZip};
ghost use Rattle.cca_base.specs.Prelude.{pairs_of, Holds, IsState};
ghost use Rattle.cca_base.specs.declared.formula.Formula.{Formula};
ghost use Rattle.consistency.specs.Spaces.{IsWorldSpace};
ghost use Rattle.consistency.specs.Worlds.{AreWorldsOf};
ghost use Rattle.control_program.specs.Goals.{FitsRoom};
ghost use Rattle.control_program.specs.Questions.{Asks, IsDenied, node_question};
ghost use Rattle.control_program.specs.Turned.{Chooses, Reaches};
ghost use Rattle.control_program.specs.Places.{choice_of};

use crate::goals::put_all;
use crate::nodes::{Mark, Node};
use bounded_list::BoundedList;
use cca_base::{List, Model, Pair, State};
use consistency::{Denied, WorldSpace, Worlds, stand_in};

/// An estimate of a model's state, and the nodes of a program with what is made ready of them.
#[derive(Drop)]
pub(crate) struct Asking<'a> {
    pub model: &'a Model,
    pub worlds: &'a Worlds,
    pub estimate: &'a State,
    /// All pairs of the estimate.
    pub modes: &'a [Pair],
    pub nodes: &'a [Node],
    /// For each node the denial of its formula, if it has one.
    pub denials: &'a [Option<Denied>],
    ghost of: { AreWorldsOf model.now worlds.now },
    ghost state: { IsState model.now estimate.now.modes },
    ghost pairs: { modes.now ≡ pairs_of estimate.now.modes },
}

/// How far a turn has come.
#[derive(Drop)]
pub(crate) struct Course {
    pub marks: List<Mark>,
    /// The first pair of each component that is asked for so far.
    pub goal: BoundedList<Pair>,
    /// Memory in which the turn's questions are asked.
    pub space: WorldSpace,
}

/// Whether the formula of the node at a place is true in every world of the estimate.
pub(crate) fn holds(asking: &Asking, at: usize, space: &mut WorldSpace) -> bool
    requires denied { AllZip (IsDenied asking.now.model.now) (map node_question asking.now.nodes.now)
        asking.now.denials.now }
    requires asks { (f : Formula) × Asks asking.now.nodes.now at f }
    requires space { IsWorldSpace asking.now.worlds.now space.old }
    ensures holds { (f : Formula) → Asks asking.now.nodes.now at f →
        (IsTrue result ↔ Holds asking.now.model.now asking.now.estimate.now.modes f) }
    ensures space { IsWorldSpace asking.now.worlds.now space.new }
{
    match &asking.denials[at] {
        Some(denied) => {
            asking
                .worlds
                .follows_from(asking.model, asking.modes, denied, space)
        }
        None => unreachable!(),
    }
}

/// Whether the pairs stand in the estimate; if they don't, they are asked for.
pub(crate) fn reaches(asking: &Asking, goal: &mut BoundedList<Pair>, pairs: &List<Pair>) -> bool
    requires among { All (λ p. p.item < goal.old.room) pairs.now }
    requires fits { FitsRoom goal.old }
    ensures reaches { Reaches asking.now.estimate.now.modes pairs.now goal.old.items result
        goal.new.items }
    ensures fits { FitsRoom goal.new }
    ensures room { goal.new.room ≡ goal.old.room }
{
    if stand_in(pairs.as_slice(), asking.estimate.modes.as_slice()) {
        return true;
    }
    put_all(goal, pairs.as_slice());
    false
}

/// Whether the choice at a place takes its first part: as it did, or as its formula says.
pub(crate) fn takes_first(asking: &Asking, at: usize, mark: Mark, space: &mut WorldSpace) -> bool
    requires denied { AllZip (IsDenied asking.now.model.now) (map node_question asking.now.nodes.now)
        asking.now.denials.now }
    requires asks { (f : Formula) × Asks asking.now.nodes.now at f }
    requires space { IsWorldSpace asking.now.worlds.now space.old }
    ensures chooses { (f : Formula) → Asks asking.now.nodes.now at f → Chooses asking.now.model.now
        asking.now.estimate.now.modes (choice_of mark) f result }
    ensures space { IsWorldSpace asking.now.worlds.now space.new }
{
    match mark {
        Mark::First => true,
        Mark::Second => false,
        _ => holds(asking, at, space),
    }
}
