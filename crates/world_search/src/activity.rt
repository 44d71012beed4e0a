//! The activity of subjects: how often clashes name them, a later one weighing more. No promise hangs on it: it guides the choice in a hard question.

ghost use Rattle.std.specs.Prelude.{◌≡◌, ◌≤◌, length, IfSome};
ghost use Rattle.clash_analysis.specs.Ends.{AreSets};
ghost use Rattle.cca_base.specs.declared.limits.TheConstants.{MAX_CHOICES};
ghost use Rattle.clash_analysis.specs.declared.subjects.TheConstants.{SET_SUBJECTS};
ghost use Rattle.world_search.specs.Choices.{AreOf, IsOpen};
ghost use Rattle.world_search.specs.Stores.{KeepsClauses};

use crate::store::Store;
use crate::words::without;
use cca_base::Pair;

/// What a clash may weigh before all weights are made less.
const MOST_WEIGHT: u64 = 1 << 40;

/// By how many bits they are made less.
const LESS_BITS: u32 = 32;

/// Adds the weight to the subjects that the learned sets name.
fn add_weight(activity: &mut [u64], learn: &[u64], weight: u64)
    ensures { length activity.new ≡ length activity.old }
{
    for v in 0..activity.len() {
        if v < learn.len() && learn[v] != 0 {
            activity[v] = activity[v].saturating_add(weight);
        }
    }
}

/// Makes all counts less.
fn lessen(activity: &mut [u64])
    ensures { length activity.new ≡ length activity.old }
{
    for count in activity {
        *count >>= LESS_BITS;
    }
}

/// Notes a clash whose clause is learned. A later one weighs more.
pub fn note_clash(store: &mut Store, learn: &[u64])
    ensures { KeepsClauses store.old store.new }
{
    let weight = store.weight;
    add_weight(&mut store.activity, learn, weight);
    store.clashes = store.clashes.saturating_add(1);
    store.weight = weight.saturating_add(weight / 16 + 1);
    if store.weight > MOST_WEIGHT {
        lessen(&mut store.activity);
        store.weight >>= LESS_BITS;
    }
}

/// Of the subjects that have other values left than the one at hand, the one that clashes have named most, with that value.
pub fn most_active(dom: &[u64], trial: &[u8], activity: &[u64]) -> Option<Pair>
    requires sets { AreSets MAX_CHOICES dom.now }
    requires small { length dom.now ≤ SET_SUBJECTS }
    requires trial { length trial.now ≡ length dom.now }
    requires left { AreOf dom.now trial.now }
    requires activity { length activity.now ≡ length dom.now }
    ensures { IfSome result (IsOpen dom.now) }
{
    let mut best = None;
    let mut most = 0;
    for v in 0..dom.len() {
        if (best.is_none() || activity[v] > most) && without(dom[v], trial[v]) != 0 {
            most = activity[v];
            best = Some(Pair {
                item: v as u16,
                value: trial[v],
            });
        }
    }
    best
}
