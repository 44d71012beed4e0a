//! The world at hand with the pairs of a question put in, mended along the clauses, each subject at most once. What comes of it is tested.

ghost use Rattle.std.specs.Prelude.{◌≡◌, ℕ, ◌<◌, ◌≤◌, true, length, All, IfSome};
ghost use Rattle.cca_base.specs.declared.limits.TheConstants.{MAX_CHOICES};
ghost use Rattle.clash_analysis.specs.Ends.{AreSets};
ghost use Rattle.clash_analysis.specs.declared.subjects.TheConstants.{SET_SUBJECTS};
ghost use Rattle.world_search.specs.Assumed.{AreAsked};
ghost use Rattle.world_search.specs.Choices.{AreOf};
ghost use Rattle.world_search.specs.Mended.{HasRoom, IsFit};
ghost use Rattle.world_search.specs.Words.{AreInside, IsClauseInside};
ghost use Rattle.world_search.specs.Worlds.{HasAll};

use crate::choose::{broken, least};
use crate::rules::{Rules, places_at};
use crate::words::{WordLiteral, has_value, is_met};
use cca_base::Pair;

/// Buffers for mending.
#[derive(Drop)]
pub struct Mending {
    /// Whether the subject's value is not to change any more.
    pub fixed: Vec<bool>,
    /// Room for the subjects whose values have changed.
    pub queue: Vec<u16>,
    /// How many these are.
    pub end: usize,
}

/// Notes that the subject's value has changed. False comes where there is no room.
fn note(mending: &mut Mending, subject: u16) -> bool
    requires { subject < length mending.old.fixed.items }
    ensures fixed { length mending.new.fixed.items ≡ length mending.old.fixed.items }
    ensures queue { length mending.new.queue.items ≡ length mending.old.queue.items }
{
    mending.fixed[subject as usize] = true;
    let end = mending.end;
    if end >= mending.queue.len() {
        return false;
    }
    mending.queue[end] = subject;
    mending.end = end + 1;
    true
}

/// Fixes nothing yet.
fn free_all(mending: &mut Mending)
    ensures fixed { length mending.new.fixed.items ≡ length mending.old.fixed.items }
    ensures queue { length mending.new.queue.items ≡ length mending.old.queue.items }
{
    for v in 0..mending.fixed.len() {
        mending.fixed[v] = false;
    }
    mending.end = 0;
}

/// Puts the pairs in. False comes where two don't go together.
fn put_pairs(trial: &mut [u8], mending: &mut Mending, pairs: &[Pair]) -> bool
    requires asked { AreAsked (length trial.old) pairs.now }
    requires room { HasRoom (length trial.old) mending.old }
    ensures trial { length trial.new ≡ length trial.old }
    ensures room { HasRoom (length trial.old) mending.new }
{
    for pair in pairs {
        let at = pair.item as usize;
        if mending.fixed[at] && trial[at] != pair.value {
            return false;
        }
        mending.fixed[at] = true;
        trial[at] = pair.value;
    }
    true
}

/// Puts the least value that is left in where the one at hand isn't left, and notes what has changed.
fn put_left(start: &[u64], world: &[u8], trial: &mut [u8], mending: &mut Mending) -> bool
    requires sets { AreSets MAX_CHOICES start.now }
    requires start { length start.now ≡ length trial.old }
    requires world { length world.now ≡ length trial.old }
    requires room { HasRoom (length trial.old) mending.old }
    requires small { length trial.old ≤ SET_SUBJECTS }
    ensures trial { length trial.new ≡ length trial.old }
    ensures room { HasRoom (length trial.old) mending.new }
{
    for v in 0..trial.len() {
        if !has_value(start[v], trial[v]) {
            if mending.fixed[v] {
                return false;
            }
            trial[v] = least(start[v]);
        }
        if trial[v] != world[v] && !note(mending, v as u16) {
            return false;
        }
    }
    true
}

/// Whether the subject is taken rather than the one at hand: the first ones go before all others, and then the last one.
fn goes_before(subject: u16, best: Option<Pair>, preferred: usize) -> bool {
    match best {
        None => true,
        Some(pair) => (subject as usize) < preferred || pair.item as usize >= preferred,
    }
}

/// A value of what may be of some subject that isn't fixed, with which the clause is true.
fn free_value(
    literals: &[WordLiteral],
    start: &[u64],
    fixed: &[bool],
    preferred: usize,
) -> Option<Pair>
    requires inside { AreInside (length start.now) literals.now }
    requires fixed { length fixed.now ≡ length start.now }
    ensures { IfSome result (λ p. p.item < length start.now) }
{
    let mut best = None;
    for literal in literals {
        let at = literal.subject as usize;
        let common = start[at] & literal.values;
        if !fixed[at] && common != 0 && goes_before(literal.subject, best, preferred) {
            best = Some(Pair {
                item: literal.subject,
                value: least(common),
            });
        }
    }
    best
}

/// Makes the clause true, if it isn't.
fn mend_clause(
    literals: &[WordLiteral],
    start: &[u64],
    preferred: usize,
    trial: &mut [u8],
    mending: &mut Mending,
) -> bool
    requires inside { AreInside (length start.now) literals.now }
    requires trial { length trial.old ≡ length start.now }
    requires room { HasRoom (length start.now) mending.old }
    ensures trial { length trial.new ≡ length trial.old }
    ensures room { HasRoom (length start.now) mending.new }
{
    if is_met(literals, trial) {
        return true;
    }
    let Some(pair) = free_value(literals, start, &mending.fixed, preferred) else {
        return false;
    };
    trial[pair.item as usize] = pair.value;
    note(mending, pair.item)
}

/// Makes the clauses at some places true.
fn mend_places(
    rules: &Rules,
    places: &[usize],
    start: &[u64],
    trial: &mut [u8],
    mending: &mut Mending,
) -> bool
    requires inside { All (IsClauseInside (length start.now)) rules.now.clauses.items }
    requires trial { length trial.old ≡ length start.now }
    requires room { HasRoom (length start.now) mending.old }
    ensures trial { length trial.new ≡ length trial.old }
    ensures room { HasRoom (length start.now) mending.new }
{
    let clauses = rules.clauses.as_slice();
    for place in places {
        if *place < clauses.len()
            && !mend_clause(
                clauses[*place].literals.as_slice(),
                start,
                rules.preferred,
                trial,
                mending,
            )
        {
            return false;
        }
    }
    true
}

/// Makes the clauses true that name what has changed.
fn mend_changed(rules: &Rules, start: &[u64], trial: &mut [u8], mending: &mut Mending) -> bool
    requires inside { All (IsClauseInside (length start.now)) rules.now.clauses.items }
    requires trial { length trial.old ≡ length start.now }
    requires room { HasRoom (length start.now) mending.old }
    ensures trial { length trial.new ≡ length trial.old }
    ensures room { HasRoom (length start.now) mending.new }
{
    let mut at = 0;
    'changed: while at < mending.end && at < mending.queue.len() {
        let subject = mending.queue[at];
        at += 1;
        let places = places_at(rules, subject);
        if !mend_places(rules, places, start, trial, mending) {
            return false;
        }
    }
    true
}

/// Whether the values are of the sets.
fn are_of(sets: &[u64], values: &[u8]) -> bool
    requires { length values.now ≡ length sets.now }
    ensures { result ≡ true → AreOf sets.now values.now }
{
    for v in 0..sets.len() {
        if !has_value(sets[v], values[v]) {
            return false;
        }
    }
    true
}

/// Whether each pair's subject has the pair's value.
fn have_all(pairs: &[Pair], values: &[u8]) -> bool
    requires { AreAsked (length values.now) pairs.now }
    ensures { result ≡ true → HasAll pairs.now values.now }
{
    for pair in pairs {
        if values[pair.item as usize] != pair.value {
            return false;
        }
    }
    true
}

/// Mends the world at hand. True comes where the values are a world of what is left, with all pairs.
pub fn mend(
    rules: &Rules,
    start: &[u64],
    world: &[u8],
    trial: &mut [u8],
    mending: &mut Mending,
    pairs: &[Pair],
) -> bool
    requires inside { All (IsClauseInside (length start.now)) rules.now.clauses.items }
    requires sets { AreSets MAX_CHOICES start.now }
    requires small { length start.now ≤ SET_SUBJECTS }
    requires world { length world.now ≡ length start.now }
    requires trial { length trial.old ≡ length start.now }
    requires room { HasRoom (length start.now) mending.old }
    requires asked { AreAsked (length start.now) pairs.now }
    ensures trial { length trial.new ≡ length trial.old }
    ensures room { HasRoom (length start.now) mending.new }
    ensures fit { result ≡ true → IsFit rules.now.clauses.items start.now pairs.now trial.new }
{
    trial.copy_from_slice(world);
    free_all(mending);
    put_pairs(trial, mending, pairs)
        && put_left(start, world, trial, mending)
        && mend_changed(rules, start, trial, mending)
        && are_of(start, trial)
        && have_all(pairs, trial)
        && broken(rules.clauses.as_slice(), trial).is_none()
}
