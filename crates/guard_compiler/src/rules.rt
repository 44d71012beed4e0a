//! The clauses of a model's rules, made once for all guards.

ghost use Rattle.std.specs.Prelude.{◌≡◌, ◌≤◌, ◌++◌, IfOk, OnOk, length};
ghost use Rattle.cca_base.specs.declared.limits.TheConstants.{MAX_SUBJECTS};
ghost use Rattle.clause_form.specs.Clauses.{AllBelow};
ghost use Rattle.guard_compiler.specs.Rules.{AreRulesOf};
ghost use Rattle.guard_compiler.specs.Shared.{AreShared, unowned};

use crate::owners::share_round;
use cca_base::{List, Model};
use clause_form::{Clause, Sizes, clauses_of, copies};
use std::alloc::{AllocError, Global};

/// A variable that more clauses name isn't tried as their owner.
const MOST_OWNED: usize = 64;

/// A clause of a model's rules, and the variable that owns it, if one does.
#[derive(Debug, Drop)]
pub struct RuleClause {
    pub owner: Option<u16>,
    pub clause: Clause,
}

/// Adds the clauses that are left, without an owner.
fn push_left(alloc: Global, left: &[Clause], rules: &mut List<RuleClause>) -> Result<(), AllocError>
    ensures { OnOk result (rules.new ≡ rules.old ++ unowned left.now) }
{
    for clause in left {
        rules.push(RuleClause {
            owner: None,
            clause: clause.copy(alloc)?,
        })?;
    }
    Ok(())
}

/// Clauses that are true exactly where these are. A variable owns the clauses that name it if, for any values of the others, some
/// value of it makes them all true: first among all clauses, and then among those that are left. Variables that
/// few clauses name are tried first, and after a round that moved some the next one goes the other way.
fn shared_out(
    alloc: Global,
    sizes: &Sizes,
    components: u16,
    clauses: &[Clause],
) -> Result<List<RuleClause>, AllocError>
    requires few { length sizes.now ≤ MAX_SUBJECTS }
    requires below { AllBelow (length sizes.now) clauses.now }
    ensures { IfOk result (AreShared sizes.now components clauses.now) }
{
    let mut left = copies(alloc, clauses)?;
    let mut rules = List::new(alloc);
    let mut most = 1;
    let mut up = false;
    'rounds: while most <= MOST_OWNED {
        if share_round(alloc, sizes, components, most, up, &mut left, &mut rules)? {
            up = !up;
        } else {
            most *= 2;
        }
    }
    push_left(alloc, left.as_slice(), &mut rules)?;
    Ok(rules)
}

/// Clauses that are all true exactly where every rule of the model is. Some may have an owner, a variable: where those
/// without an owner are true, the owners can be given values with which all are. The error is out of memory.
pub fn rules_of(alloc: Global, model: &Model) -> Result<List<RuleClause>, AllocError>
    ensures { IfOk result (AreRulesOf model.now) }
{
    let components = model.components().len() as u16;
    let whole = clauses_of(alloc, model, None, None)?;
    shared_out(alloc, &whole.sizes, components, whole.clauses.as_slice())
}
