//! Subsumption of clauses, and clauses that are always true.

ghost use Rattle.std.specs.Prelude.{◌≡◌, ℕ, List, length, IsTrue};
ghost use Rattle.clause_form.specs.Clauses.{AreValues, is_true, is_met, AreBelow};

use crate::clause::Literal;
use crate::literals::skip;
use crate::sizes::Sizes;
use cca_base::ValueSet;

/// Whether the second is of the same subject, and has the first one's values.
fn is_part(one: &Literal, other: &Literal) -> bool
    ensures { IsTrue result → (xs : List ℕ) → IsTrue (is_true xs one.now) →
        IsTrue (is_true xs other.now) }
{
    one.subject == other.subject && one.values.is_within(other.values)
}

/// Whether the narrow clause subsumes the wide one, which is then true wherever the narrow one is. Both are gone through
/// once, in the order of subjects; a clause that isn't in this order may be missed.
pub(crate) fn subsumes(narrow: &[Literal], wide: &[Literal]) -> bool
    ensures { IsTrue result → (xs : List ℕ) → IsTrue (is_met xs narrow.now) →
        IsTrue (is_met xs wide.now) }
{
    if narrow.len() > wide.len() {
        return false;
    }
    let mut at = 0;
    for literal in narrow {
        at = skip(wide, at, literal.subject);
        if at >= wide.len() || !is_part(literal, &wide[at]) {
            return false;
        }
    }
    true
}

/// Whether some literal has every value of its subject.
pub(crate) fn is_always_met(sizes: &Sizes, literals: &[Literal]) -> bool
    requires below { AreBelow (length sizes.now) literals.now }
    ensures { IsTrue result → (xs : List ℕ) → AreValues sizes.now xs →
        IsTrue (is_met xs literals.now) }
{
    for literal in literals {
        let all = ValueSet::full(sizes.get(literal.subject as usize));
        if all.is_within(literal.values) {
            return true;
        }
    }
    false
}
