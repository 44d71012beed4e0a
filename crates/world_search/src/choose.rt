//! The choice of a value to try: one that makes a clause true which the values at hand leave false.

ghost use Rattle.std.specs.Prelude.{◌≡◌, ◌≢◌, ℕ, Bool, ◌<◌, ◌++◌, true, false, List, length, All, Contains, IsNone, IfSome};
ghost use Rattle.cca_base.specs.Sets.{has};
ghost use Rattle.cca_base.specs.declared.limits.TheConstants.{MAX_CHOICES};
ghost use Rattle.clash_analysis.specs.Ends.{AreSets};
ghost use Rattle.clash_analysis.specs.Learning.{IsOut};
ghost use Rattle.world_search.specs.Choices.{AllMetBy, AreOf, IsFoundFalse, IsOpen, IsStep};
ghost use Rattle.world_search.specs.Words.{AreInside, IsClauseInside, IsMetIn, literals_of, met};
ghost use Rattle.world_search.specs.Works.{IsClear, IsReady, weight_of};
ghost use Rattle.world_search.specs.declared.words.WordClause.{WordClause};

use crate::visit::learn_clause;
use crate::words::{WordClause, WordLiteral, has_value, is_met};
use crate::work::{Work, try_value};
use cca_base::Pair;

/// What comes of a step.
pub enum Step {
    /// The values at hand are a world.
    Found,
    /// A value is tried.
    Tried,
    /// A clause can't be true any more.
    Clash,
}

/// The least value of the set.
pub fn least(set: u64) -> u8
    requires { set ≢ 0 }
    ensures small { result < MAX_CHOICES }
    ensures has { has set result ≡ true }
{
    set.trailing_zeros() as u8
}

/// A value of what is left of each subject: the one at hand if it can be, else the least.
pub fn wish(dom: &[u64], world: &[u8], trial: &mut [u8])
    requires sets { AreSets MAX_CHOICES dom.now }
    requires world { length world.now ≡ length dom.now }
    requires trial { length trial.old ≡ length dom.now }
    ensures long { length trial.new ≡ length trial.old }
    ensures all { AreOf dom.now trial.new }
{
    for v in 0..dom.len() {
        trial[v] = if has_value(dom[v], world[v]) {
            world[v]
        } else {
            least(dom[v])
        };
    }
}

/// The first clause that is false of the values.
pub fn broken<'a>(clauses: &'a [WordClause], trial: &[u8]) -> Option<&'a WordClause>
    requires { All (IsClauseInside (length trial.now)) clauses.now }
    ensures none { IsNone result → AllMetBy trial.now clauses.now }
    ensures among { IfSome result (λ c. Contains clauses.now c.now) }
    ensures untrue { IfSome result (λ c. met trial.now c.now.literals.items ≡ false) }
{
    for clause in clauses {
        if !is_met(clause.literals.as_slice(), trial) {
            return Some(clause);
        }
    }
    None
}

/// The first clause that is false of the values, among these, and then those.
pub fn broken_of<'a>(
    clauses: &'a [WordClause],
    beside: &'a [WordClause],
    trial: &[u8],
) -> Option<&'a WordClause>
    requires clauses { All (IsClauseInside (length trial.now)) clauses.now }
    requires beside { All (IsClauseInside (length trial.now)) beside.now }
    ensures none { IsNone result → AllMetBy trial.now (clauses.now ++ beside.now) }
    ensures among { IfSome result (λ c. Contains (clauses.now ++ beside.now) c.now) }
    ensures untrue { IfSome result (λ c. met trial.now c.now.literals.items ≡ false) }
{
    if let Some(clause) = broken(clauses, trial) {
        return Some(clause);
    }
    broken(beside, trial)
}

/// A value of what is left of some subject with which the clause is true, that is false now.
fn mending(literals: &[WordLiteral], dom: &[u64], trial: &[u8]) -> Option<Pair>
    requires inside { AreInside (length dom.now) literals.now }
    requires trial { AreOf dom.now trial.now }
    requires untrue { met trial.now literals.now ≡ false }
    ensures none { IsNone result → All (IsOut dom.now) (literals_of literals.now) }
    ensures open { IfSome result (IsOpen dom.now) }
{
    for literal in literals {
        let common = dom[literal.subject as usize] & literal.values;
        if common != 0 {
            return Some(Pair {
                item: literal.subject,
                value: least(common),
            });
        }
    }
    None
}

/// Tries a value, where the clause is false of the values at hand: the pair's, if there is one, else one with which the clause is true. True comes where
/// nothing makes it true any more: it is learned.
pub fn choose_value(
    literals: &[WordLiteral],
    work: &mut Work,
    trial: &[u8],
    late: Option<Pair>,
) -> bool
    requires ready { IsReady work.old }
    requires inside { AreInside (length work.old.dom.items) literals.now }
    requires clear { IsClear work.old }
    requires long { length trial.now ≡ length work.old.dom.items }
    requires trial { AreOf work.old.dom.items trial.now }
    requires untrue { met trial.now literals.now ≡ false }
    requires late { IfSome late (IsOpen work.old.dom.items) }
    ensures step { IsStep (IsMetIn literals.now) work.old work.new }
    ensures tried { result ≡ false → IsClear work.new × (weight_of work.new < weight_of work.old) }
    ensures clash { result ≡ true → IsFoundFalse (IsMetIn literals.now) work.new }
{
    if let Some(pair) = late {
        try_value(work, pair.item, pair.value);
        return false;
    }
    let Some(pair) = mending(literals, &work.dom, trial) else {
        learn_clause(literals, &work.start, &mut work.learn);
        return true;
    };
    try_value(work, pair.item, pair.value);
    false
}
