//! What the turns of a program need, made once where the program is read: then a turn takes no memory.

ghost use Rattle.std.specs.Prelude.{◌≡◌, ◌<◌, ◌≤◌, map, All, IfOk};
ghost use Rattle.std.specs.List.{AllZip};
ghost use Rattle.consistency.specs.Worlds.{AreWorldsOf};
ghost use Rattle.control_program.specs.Formulas.{formulas_left, IsWithin};
ghost use Rattle.control_program.specs.Questions.{IsAmong, IsDenied, MayAsk, node_question};

use crate::asking::Course;
use crate::nodes::{Kind, Node, Task};
use crate::runner::Runner;
use bounded_list::BoundedList;
use cca_base::{List, Model, Pair};
use consistency::{Denied, Worlds};
use std::alloc::{AllocError, Global};

/// Room for the turns of one program with one model: the denial of each formula that it asks, and memory for all that a turn puts together.
#[derive(Drop)]
pub struct TurnRoom {
    /// For each part in the order of the program's lines the denial of its formula, if it has one.
    pub(crate) denials: Vec<Option<Denied>, Global>,
    /// Each component with its mode in the estimate of a turn.
    pub(crate) modes: Vec<Pair, Global>,
    pub(crate) course: Course,
}

/// The denial of a node's formula, if it has one. The error is out of memory.
fn denial_of(alloc: Global, model: &Model, node: &Node) -> Result<Option<Denied>, AllocError>
    requires { MayAsk model.now (node_question node.now) }
    ensures { IfOk result (IsDenied model.now (node_question node.now)) }
{
    match &node.kind {
        Kind::Once(task) => match task {
            Task::Await(formula) => Ok(Some(Denied::of(alloc, model, formula)?)),
            Task::Reach(_) | Task::Parts(_, _) => Ok(None),
        },
        Kind::Choose(formula) => Ok(Some(Denied::of(alloc, model, formula)?)),
        Kind::Repeat(_) => Ok(None),
    }
}

/// For each node the denial of its formula, if it has one. The error is out of memory.
fn denials_of(
    alloc: Global,
    model: &Model,
    nodes: &[Node],
) -> Result<Vec<Option<Denied>, Global>, AllocError>
    requires { All (MayAsk model.now) (map node_question nodes.now) }
    ensures { IfOk result (λ ds.
        AllZip (IsDenied model.now) (map node_question nodes.now) ds.items) }
{
    let mut denials = Vec::new(alloc);
    for node in nodes {
        denials.push(denial_of(alloc, model, node)?)?;
    }
    Ok(denials)
}

/// A number past the components of the pairs, and no less than another one.
fn past_pairs(least: usize, pairs: &[Pair]) -> usize
    requires { least < 65537 }
    ensures past { All (λ p. p.item < result) pairs.now }
    ensures least { least ≤ result }
    ensures small { result < 65537 }
{
    let mut past = least;
    for pair in pairs {
        past = past.max(pair.item as usize + 1);
    }
    past
}

/// A number past the components of the pairs that a node asks for, and no less than another one.
fn past_node(least: usize, node: &Node) -> usize
    requires { least < 65537 }
    ensures past { IsAmong result (node_question node.now) }
    ensures least { least ≤ result }
    ensures small { result < 65537 }
{
    match &node.kind {
        Kind::Once(task) => match task {
            Task::Reach(pairs) => past_pairs(least, pairs.as_slice()),
            Task::Await(_) | Task::Parts(_, _) => least,
        },
        Kind::Choose(_) | Kind::Repeat(_) => least,
    }
}

/// A number past the components of the pairs that the nodes ask for.
fn past_all(nodes: &[Node]) -> usize
    ensures { All (IsAmong result) (map node_question nodes.now) }
{
    let mut past = 0;
    for node in nodes {
        past = past_node(past, node);
    }
    past
}

impl TurnRoom {
    ghost use Rattle.control_program.specs.Rooms.{IsTurnRoomOf, goal_in};

    /// Room for the turns of the runner's program with a model whose worlds the caller has. The error is out of memory.
    pub fn of(
        alloc: Global,
        model: &Model,
        worlds: &Worlds,
        runner: &Runner,
    ) -> Result<TurnRoom, AllocError>
        requires of { AreWorldsOf model.now worlds.now }
        requires formulas { All (IsWithin model.now) (formulas_left runner.now.program) }
        ensures { IfOk result (IsTurnRoomOf model.now runner.now.program) }
    {
        let nodes = runner.nodes.as_slice();
        let components = model.components().len();
        Ok(TurnRoom {
            denials: denials_of(alloc, model, nodes)?,
            modes: Vec::from_elem(alloc, Pair { item: 0, value: 0 }, components)?,
            course: Course {
                marks: List::new(alloc),
                goal: BoundedList::with_room(alloc, past_all(nodes))?,
                space: worlds.small_space(alloc)?,
            },
        })
    }

    /// The goal of the last turn: what it asks for.
    pub fn goal(&self) -> &[Pair]
        ensures { result.now ≡ goal_in self.now }
    {
        self.course.goal.as_slice()
    }

    /// The goal of the last turn, without the room.
    pub fn into_goal(self) -> List<Pair>
        ensures { result ≡ goal_in self }
    {
        let course = self.course;
        List::of(course.goal.into_vec())
    }
}
