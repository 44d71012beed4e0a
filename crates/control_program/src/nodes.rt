//! A program as one flat list of nodes, in the order of its lines, and a mark for each.

ghost use Rattle.std.specs.Prelude.{◌≡◌, ◌<◌, length, slice_get, Some};
ghost use Rattle.control_program.specs.Places.{fresh_mark, is_ended, rounds_of};

use cca_base::{Formula, List, Pair};

/// A part without the parts in it, which stand behind it.
#[derive(Debug, Drop)]
pub(crate) struct Node {
    pub kind: Kind,
    /// How many nodes the part has, this one among them.
    pub size: usize,
}

/// What a node's part does.
#[derive(Debug, Drop)]
pub(crate) enum Kind {
    Once(Task),
    Choose(Formula),
    /// How often its part goes round.
    Repeat(u32),
}

/// What ends once and for all.
#[derive(Debug, Drop)]
pub(crate) enum Task {
    Reach(List<Pair>),
    Await(Formula),
    /// Whether its parts come one after the other, and how many they are.
    Parts(bool, usize),
}

/// How far a node has come.
#[derive(Clone, Copy, Debug)]
pub(crate) enum Mark {
    Open,
    Ended,
    /// Of a choice: its first part was chosen.
    First,
    /// Of a choice: its second part was chosen.
    Second,
    /// Of a repetition: how many rounds are left, this one among them.
    Rounds(u32),
}

/// The node at a place, counted from 0.
pub(crate) fn node_at(nodes: &[Node], at: usize) -> &Node
    requires { at < length nodes.now }
    ensures { slice_get nodes.now at ≡ Some result.now }
{
    &nodes[at]
}

/// The mark at the start.
pub(crate) fn fresh_mark(node: &Node) -> Mark
    ensures { result ≡ fresh_mark node.now }
{
    match &node.kind {
        Kind::Repeat(number) => Mark::Rounds(*number),
        _ => Mark::Open,
    }
}

/// Whether the node was marked as ended.
pub(crate) fn is_ended(mark: Mark) -> bool
    ensures { result ≡ is_ended mark }
{
    match mark {
        Mark::Ended => true,
        _ => false,
    }
}

/// How many rounds are left.
pub(crate) fn rounds_of(mark: Mark) -> u32
    ensures { result ≡ rounds_of mark }
{
    match mark {
        Mark::Rounds(rounds) => rounds,
        _ => 0,
    }
}
