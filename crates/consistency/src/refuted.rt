//! Whether unit propagation alone shows that clauses can't be met beside those of a problem.

ghost use Rattle.std.specs.Prelude.{◌≡◌, false, length, IsTrue};
ghost use Rattle.clause_form.specs.Clauses.{AllBelow, AreBelow, all_met, is_met};
ghost use Rattle.consistency.specs.Search.{EachWorld};
ghost use Rattle.world_search.specs.Spaces.{IsSpace, base_in};

use clause_form::{Clause, Literal};
use world_search::{Problem, Space};

/// Whether no literal can be true of what is left.
fn are_out(problem: &Problem, space: &Space, literals: &[Literal]) -> bool
    requires space { IsSpace problem.now space.now }
    requires below { AreBelow (length problem.now.sizes) literals.now }
    ensures { IsTrue result →
        EachWorld problem.now.clauses (base_in space.now) (λ xs. is_met xs literals.now ≡ false) }
{
    for literal in literals {
        if problem.left(space, literal.subject as usize) & literal.values.bits() != 0 {
            return false;
        }
    }
    true
}

/// Whether what is left shows that no world meets the clauses. A no says nothing.
pub fn is_refuted(problem: &Problem, space: &Space, clauses: &[Clause]) -> bool
    requires space { IsSpace problem.now space.now }
    requires below { AllBelow (length problem.now.sizes) clauses.now }
    ensures { IsTrue result →
        EachWorld problem.now.clauses (base_in space.now) (λ xs. all_met xs clauses.now ≡ false) }
{
    for clause in clauses {
        if are_out(problem, space, clause.literals.as_slice()) {
            return true;
        }
    }
    false
}
