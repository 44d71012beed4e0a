//! What comes of a clash: a lower level on which a learned clause narrows a subject, or subjects to blame.

ghost use Rattle.std.specs.Prelude.{◌≡◌, ℕ, Bool, ◌<◌, List, length, IsNone, IfSome};
ghost use Rattle.cca_base.specs.declared.cube.Pair.{Pair};
ghost use Rattle.clash_analysis.specs.Clashes.{NoneHas};
ghost use Rattle.clash_analysis.specs.Subjects.{is_in};
ghost use Rattle.world_search.specs.Stores.{AreKept, IsStore};
ghost use Rattle.world_search.specs.Works.{IsClashed, IsClear, IsReady, IsRight, IsShaped, KeepsBelow, weight_of};

use crate::activity::note_clash;
use crate::store::{Store, keep};
use crate::work::Work;
use clash_analysis::{SubjectSet, analyse, clear, no_subject};

/// Learns from a clash. None comes where the search goes on, on a lower level; the learned clause is kept, if it isn't too long. Else no world has the
/// pairs of the subjects that come.
pub fn learn_further(work: &mut Work, store: &mut Store) -> Option<SubjectSet>
    requires ready { IsReady work.old }
    requires store { IsStore (length work.old.dom.items) store.old }
    requires clash { (want : List ℕ → Bool) × (pairs : List Pair) × IsClashed want pairs work.old }
    ensures shape { IsShaped work.new }
    ensures start { work.new.start.items ≡ work.old.start.items }
    ensures room { length work.new.trail.items ≡ length work.old.trail.items }
    ensures ready { IsNone result → IsReady work.new }
    ensures clear { IsNone result → IsClear work.new }
    ensures below { IsNone result → KeepsBelow work.old work.new }
    ensures weight { IsNone result → weight_of work.new < weight_of work.old }
    ensures right { IsNone result → (want : List ℕ → Bool) (pairs : List Pair) → IsClashed want pairs work.old →
        IsRight want pairs work.new }
    ensures store { IsStore (length work.old.dom.items) store.new }
    ensures kept { (want : List ℕ → Bool) (pairs : List Pair) → IsClashed want pairs work.old →
        AreKept store.old want → AreKept store.new want }
    ensures blamed { IfSome result (λ set. (want : List ℕ → Bool) (pairs : List Pair) →
        IsClashed want pairs work.old → NoneHas want pairs (is_in set)) }
{
    let mut blamed = no_subject();
    let learned = analyse(
        &work.start,
        &mut work.dom,
        &mut work.learn,
        &mut work.trail,
        work.long,
        &work.marks,
        work.levels,
        &mut blamed,
    );
    let Some(level) = learned else {
        return Some(blamed);
    };
    keep(store, &work.learn);
    note_clash(store, &work.learn);
    clear(&mut work.learn);
    let mark = work.marks[level] as usize;
    work.levels = level;
    work.long = mark + 1;
    work.head = mark;
    None
}
