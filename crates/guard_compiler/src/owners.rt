//! Clauses of the rules that one variable owns: where the others are true, its value makes them true.

ghost use Rattle.std.specs.Prelude.{◌≡◌, ◌++◌, ◌<◌, ◌≤◌, IfOk, List, OnOk, length};
ghost use Rattle.cca_base.specs.declared.limits.TheConstants.{MAX_SUBJECTS};
ghost use Rattle.clause_form.specs.Clauses.{AllBelow};
ghost use Rattle.clause_form.specs.declared.clause.Clause.{Clause};
ghost use Rattle.guard_compiler.specs.Shared.{IsTrial, owned_by};

use crate::rules::RuleClause;
use cca_base::List;
use clause_form::{Clause, Clauses, Sizes, keep_others, naming};
use elimination::project_subject;
use std::alloc::{AllocError, Global};

/// Adds the clauses, which belong to the subject.
fn push_owned(
    alloc: Global,
    clauses: &[Clause],
    x: u16,
    rules: &mut List<RuleClause>,
) -> Result<(), AllocError>
    ensures { OnOk result (rules.new ≡ rules.old ++ owned_by x clauses.now) }
{
    for clause in clauses {
        rules.push(RuleClause {
            owner: Some(x),
            clause: clause.copy(alloc)?,
        })?;
    }
    Ok(())
}

/// Moves the clauses that name the variable to the rules, as its own, if there are no more than `most`, and where, whatever
/// values the others have, some value of it makes them all true. Says whether they were moved.
fn share(
    alloc: Global,
    sizes: &Sizes,
    components: u16,
    most: usize,
    x: u16,
    left: &mut Vec<Clause>,
    rules: &mut List<RuleClause>,
) -> Result<bool, AllocError>
    requires few { length sizes.now ≤ MAX_SUBJECTS }
    requires variable { components ≤ x }
    requires subject { x < length sizes.now }
    requires below { AllBelow (length sizes.now) left.old.items }
    ensures { IfOk result (IsTrial sizes.now components rules.old left.old.items rules.new
        left.new.items) }
{
    let with = List::of(naming(alloc, left.as_slice(), x)?);
    if with.len() == 0 || with.len() > most {
        return Ok(false);
    }
    let with = Clauses {
        sizes: sizes.copy(alloc)?,
        clauses: with,
    };
    if project_subject(alloc, &with, x)?.clauses.len() > 0 {
        return Ok(false);
    }
    keep_others(left, x);
    push_owned(alloc, with.clauses.as_slice(), x, rules)?;
    Ok(true)
}

/// The number at place `k` from `first` to `end`, upwards, or else downwards.
fn number_at(place: u16, first: u16, end: u16, up: bool) -> u16
    requires above { first ≤ place }
    requires below { place < end }
    ensures above { first ≤ result }
    ensures below { result < end }
{
    if up { place } else { end - 1 - (place - first) }
}

/// Tries each variable as an owner, the first or the last first, and says whether one got clauses.
pub(crate) fn share_round(
    alloc: Global,
    sizes: &Sizes,
    components: u16,
    most: usize,
    up: bool,
    left: &mut Vec<Clause>,
    rules: &mut List<RuleClause>,
) -> Result<bool, AllocError>
    requires few { length sizes.now ≤ MAX_SUBJECTS }
    requires below { AllBelow (length sizes.now) left.old.items }
    ensures { IfOk result (IsTrial sizes.now components rules.old left.old.items rules.new
        left.new.items) }
{
    let mut found = false;
    let subjects = sizes.len() as u16;
    for k in components..subjects {
        let x = number_at(k, components, subjects, up);
        if share(alloc, sizes, components, most, x, left, rules)? {
            found = true;
        }
    }
    Ok(found)
}
