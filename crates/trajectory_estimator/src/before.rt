//! The state before a record as far as a group knows it, and pairs that blame it.

ghost use Rattle.std.specs.Prelude.{◌≡◌, ◌<◌, ◌≤◌, IfSome, IsNone, IsTrue, ◌↔◌, Contains, All, List, ℕ, true, false, length};
ghost use Rattle.cca_base.specs.Prelude.{IsCube};
ghost use Rattle.cca_base.specs.MoveIndex.{IsMoveNamed};
ghost use Rattle.cca_base.specs.declared.cube.Pair.{Pair};
ghost use Rattle.trajectory_estimator.specs.Windows.{state_before, window_of};

use crate::group_paths::GroupPaths;
use bounded_list::BoundedList;
use cca_base::{Cube, Pair};

/// The state before a record, of which a group knows the modes of its components.
#[derive(Clone, Copy)]
pub(crate) struct Before<'a> {
    pub paths: GroupPaths<'a>,
    pub at: usize,
    /// What stands for the modes of all components.
    pub modes: &'a [u8],
    ghost within: { at < length paths.query.now.records },
    ghost full: { length modes.now ≡ length paths.query.now.model.components },
    ghost state: { modes.now ≡ state_before paths.query.now paths.values.now at },
}

/// Whether a pair has the item.
fn names(pairs: &[Pair], item: u16) -> bool
    ensures { IsTrue result ↔ (p : Pair) × Contains pairs.now p × (p.item ≡ item) }
{
    for pair in pairs {
        if pair.item == item {
            return true;
        }
    }
    false
}

impl<'a> Before<'a> {
    ghost use Rattle.trajectory_estimator.specs.Clashes.{AreOwn, Blames, IsAgainst, IsCutWith, IsKnown, MayFail, MayHold, knows};

    /// The state before the record.
    pub(crate) fn of(paths: GroupPaths<'a>, at: usize) -> Before<'a>
        requires { at < length paths.query.now.records }
        ensures paths { result.paths ≡ paths.entry }
        ensures at { result.at ≡ at }
    {
        let modes = if at == 0 {
            paths.query.anchor().modes.as_slice()
        } else {
            paths.modes_at(at - 1)
        };
        Before { paths, at, modes }
    }

    /// Whether the mode of the component is known.
    fn knows(&self, component: u16) -> bool
        requires { component < length self.now.modes.now }
        ensures { result ≡ knows self.now component }
    {
        self.at == 0 || self.paths.has(component)
    }

    /// The number of the move that the command names in these modes. None comes exactly where it names none.
    pub(crate) fn named(&self, command: u16) -> Option<u16>
        ensures some { IfSome result (IsMoveNamed self.now.paths.query.now.model.moves self.now.modes.now command) }
        ensures none { IsNone result →
            (i : ℕ) → IsMoveNamed self.now.paths.query.now.model.moves self.now.modes.now command i → ⊥ }
    {
        let model = self.paths.query.model();
        if command as usize >= model.commands().len() {
            return None;
        }
        let moves = model.moves();
        for number in model.moves_by(command) {
            let step = moves.get(*number as usize);
            if self.modes[step.component as usize] == step.source {
                return Some(*number);
            }
        }
        None
    }

    /// Whether all pairs of the cube are known to stand.
    fn stands(&self, cube: &Cube) -> bool
        requires { All (λ p. p.item < length self.now.modes.now) cube.now }
        ensures { IsTrue result ↔ All (IsKnown self.now) cube.now }
    {
        for pair in cube.as_slice() {
            if !self.knows(pair.item) || self.modes[pair.item as usize] != pair.value {
                return false;
            }
        }
        true
    }

    /// A component of the cube that is known to stand in another mode, with that mode. None comes exactly where there is none.
    fn failing(&self, cube: &Cube) -> Option<Pair>
        requires { All (λ p. p.item < length self.now.modes.now) cube.now }
        ensures some { IfSome result (IsKnown self.now) }
        ensures against { IfSome result (IsAgainst cube.now) }
        ensures none { IsNone result → MayHold self.now cube.now }
    {
        for pair in cube.as_slice() {
            let mode = self.modes[pair.item as usize];
            if self.knows(pair.item) && mode != pair.value {
                return Some(Pair {
                    item: pair.item,
                    value: mode,
                });
            }
        }
        None
    }

    /// A cube that is known to stand. None comes exactly where there is none.
    pub(crate) fn standing<'b>(&self, ways: &'b [Cube]) -> Option<&'b Cube>
        requires { All (All (λ p. p.item < length self.now.modes.now)) ways.now }
        ensures some { IfSome result (λ cube. Contains ways.now cube.now) }
        ensures known { IfSome result (λ cube. All (IsKnown self.now) cube.now) }
        ensures none { IsNone result → All (MayFail self.now) ways.now }
    {
        for cube in ways {
            if self.stands(cube) {
                return Some(cube);
            }
        }
        None
    }

    /// Sees to it that the cut says that the component stands in the mode before the record. Before the window it always does.
    pub(crate) fn blame(&self, cut: &mut BoundedList<Pair>, pair: Pair)
        requires known { IsKnown self.now pair }
        requires own { AreOwn self.now.paths cut.old.items }
        requires cube { IsCube cut.old.items }
        requires room { length (window_of self.now.paths.query.now).of ≤ cut.old.room }
        ensures cut { IsCutWith self.now cut.old.items cut.new.items }
        ensures blames { Blames self.now cut.new.items pair }
        ensures cube { IsCube cut.new.items }
        ensures room { cut.new.room ≡ cut.old.room }
    {
        if self.at == 0 {
            return;
        }
        let item = ((self.at - 1) * self.paths.count()) as u16 + pair.item;
        if !names(cut.as_slice(), item) {
            cut.push(Pair {
                item,
                value: pair.value,
            });
        }
    }

    /// Adds pairs of a cube that is known to stand.
    pub(crate) fn blame_all(&self, cut: &mut BoundedList<Pair>, cube: &Cube)
        requires known { All (IsKnown self.now) cube.now }
        requires own { AreOwn self.now.paths cut.old.items }
        requires cube { IsCube cut.old.items }
        requires room { length (window_of self.now.paths.query.now).of ≤ cut.old.room }
        ensures cut { IsCutWith self.now cut.old.items cut.new.items }
        ensures blames { All (Blames self.now cut.new.items) cube.now }
        ensures cube { IsCube cut.new.items }
        ensures room { cut.new.room ≡ cut.old.room }
    {
        for pair in cube.as_slice() {
            self.blame(cut, *pair);
        }
    }

    /// Adds for each cube a component that is known to stand in another mode. False comes only where one has none.
    pub(crate) fn blame_each(&self, cut: &mut BoundedList<Pair>, ways: &[Cube]) -> bool
        requires ways { All (All (λ p. p.item < length self.now.modes.now)) ways.now }
        requires own { AreOwn self.now.paths cut.old.items }
        requires cube { IsCube cut.old.items }
        requires room { length (window_of self.now.paths.query.now).of ≤ cut.old.room }
        ensures cut { IsCutWith self.now cut.old.items cut.new.items }
        ensures blames { result ≡ true → All (λ cube. (p : Pair) × IsAgainst cube p × Blames self.now cut.new.items p) ways.now }
        ensures none { result ≡ false → (cube : List Pair) × Contains ways.now cube × MayHold self.now cube }
        ensures cube { IsCube cut.new.items }
        ensures room { cut.new.room ≡ cut.old.room }
    {
        for cube in ways {
            let Some(pair) = self.failing(cube) else {
                return false;
            };
            self.blame(cut, pair);
        }
        true
    }
}
