//! Components with places that take values, and a search's questions about them.

ghost use Rattle.std.specs.Prelude.{◌≡◌, ◌<◌, ◌≤◌, ℕ, true, false, All, List, length, slice_index};
ghost use Rattle.cca_base.specs.State.{Extends};
ghost use Rattle.cca_base.specs.declared.limits.TheConstants.{MAX_ROWS};
ghost use Rattle.group_search.specs.Columns.{ArePaths, AreColumns, IsColumn, KeepsOthers, NoColumn};
ghost use Rattle.group_search.specs.Meanings.{PathMeaning};
ghost use Rattle.group_search.specs.Questions.{AreOf, IsCut, IsWhole, in_group};
ghost use Rattle.group_search.specs.declared.columns.TheConstants.{MAX_PATH};

use crate::columns::Columns;
use bounded_list::BoundedList;
use cca_base::Pair;

/// Components that each take a path: values of their own places. `S` is memory for questions.
pub trait Paths<S> {
    /// What is asked.
    ghost means: { PathMeaning Self S };

    /// The component of each place.
    fn components(&self) -> &[u16]
        ensures { result.now ≡ (means.question self.now).of };

    /// How many components there are.
    fn count(&self) -> usize
        ensures { result ≡ (means.question self.now).count };

    /// How much room is wanted to find a path.
    fn room(&self) -> usize
        ensures { result ≡ (means.question self.now).room };

    /// Writes the component's path of least cost whose values are in the sets, with what it costs more to leave each of
    /// them. False comes only where no solution has such values there.
    fn column(&self, component: u16, masks: &[u64], columns: &mut Columns) -> bool
        requires component { component < (means.question self.now).count }
        requires masks { length masks.now ≡ length (means.question self.now).of }
        requires shape { AreColumns (means.question self.now) columns.old }
        ensures others { KeepsOthers (means.question self.now) component columns.old columns.new }
        ensures stands { result ≡ true → IsColumn (means.question self.now) masks.now component columns.new }
        ensures none { result ≡ false → NoColumn (means.question self.now) masks.now component };

    /// Whether values of the group's places are known that no solution has together: they are written then. False says of a group of all
    /// components that they are a solution.
    fn clash(
        &self,
        space: &mut S,
        values: &[u8],
        costs: &[u64],
        names: &[u16],
        group: Option<u16>,
        cut: &mut BoundedList<Pair>,
    ) -> bool
        requires space { means.is_space self.now space.old }
        requires names { length names.now ≡ (means.question self.now).count }
        requires paths { ArePaths (means.question self.now) (in_group names.now group) values.now costs.now }
        requires room { length (means.question self.now).of ≤ cut.old.room }
        ensures space { means.is_space self.now space.new }
        ensures room { cut.new.room ≡ cut.old.room }
        ensures cut { result ≡ true → IsCut (means.question self.now) cut.new.items }
        ensures held { result ≡ true → Extends values.now cut.new.items }
        ensures own { result ≡ true → AreOf (means.question self.now) (in_group names.now group) cut.new.items }
        ensures none { result ≡ false → IsWhole (means.question self.now) names.now group →
            (means.question self.now).solves values.now costs.now };

    // Each place is one of a component, and there are not too many.
    ghost owned: { (x : Self) → All (λ c. c < (means.question x).count) (means.question x).of };

    ghost few: { (x : Self) → ((means.question x).count ≤ MAX_ROWS) × (length (means.question x).of ≤ MAX_ROWS) };

    // A solution has a value for each place, and none of its costs is out of reach.
    ghost whole: { (x : Self) (values costs : List ℕ) → (means.question x).solves values costs →
        (length values ≡ length (means.question x).of) × ((c : ℕ) → slice_index costs c ≤ MAX_PATH) };

    // What a component costs depends on its own places alone.
    ghost own_places: { (x : Self) (c cost : ℕ) (values others : List ℕ) →
        ((place : ℕ) → place < length (means.question x).of → slice_index (means.question x).of place ≡ c →
        slice_index values place ≡ slice_index others place) →
        (means.question x).has_cost c values cost → (means.question x).has_cost c others cost };
}
