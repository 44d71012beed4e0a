//! The clauses of the rules that bear on a guard, directly or through others.

ghost use Rattle.std.specs.Prelude.{◌≡◌, ◌++◌, All, IfOk, OnOk, filter, length};
ghost use Rattle.clause_form.specs.Clauses.{AllBelow};
ghost use Rattle.cca_base.specs.Prelude.{is_set};
ghost use Rattle.guard_compiler.specs.Naming.{IsOver};
ghost use Rattle.guard_compiler.specs.Rules.{AreRulesBelow, clauses_in};
ghost use Rattle.guard_compiler.specs.Relevant.{IsRelevantSet, IsWithRelevant, bears};

use crate::marks::{bears, mark_all, spread};
use crate::rules::RuleClause;
use cca_base::List;
use clause_form::{Clause, Clauses};
use std::alloc::{AllocError, Global};

/// Marks of the guard's variables.
fn guard_marks(
    alloc: Global,
    components: u16,
    subjects: usize,
    guard: &[Clause],
) -> Result<Vec<bool>, AllocError>
    requires { AllBelow subjects guard.now }
    ensures full { IfOk result (λ v. length v.items ≡ subjects) }
    ensures over { IfOk result (λ v. All (IsOver components (is_set v.items)) guard.now) }
{
    let mut marks = vec![in alloc; false; subjects]?;
    mark_all(guard, components, marks.as_mut_slice());
    Ok(marks)
}

/// Marks of some variables, among them those of the guard, and of each of the rules' clauses that bears on a marked one.
fn marks_of(
    alloc: Global,
    components: u16,
    subjects: usize,
    rules: &[RuleClause],
    guard: &[Clause],
) -> Result<Vec<bool>, AllocError>
    requires rules { AreRulesBelow subjects rules.now }
    requires guard { AllBelow subjects guard.now }
    ensures full { IfOk result (λ v. length v.items ≡ subjects) }
    ensures relevant { IfOk result (λ v.
        IsRelevantSet components rules.now guard.now (is_set v.items)) }
{
    let mut marks = guard_marks(alloc, components, subjects, guard)?;
    'rounds: while spread(rules, components, marks.as_mut_slice()) {}
    Ok(marks)
}

/// Adds the clauses that bear on the marked subjects.
fn add_marked(
    alloc: Global,
    rules: &[RuleClause],
    marks: &[bool],
    clauses: &mut List<Clause>,
) -> Result<(), AllocError>
    requires { AreRulesBelow (length marks.now) rules.now }
    ensures { OnOk result (clauses.new
        ≡ clauses.old ++ clauses_in (filter (bears (is_set marks.now)) rules.now)) }
{
    for rule in rules {
        if bears(rule, marks) {
            clauses.push(rule.clause.copy(alloc)?)?;
        }
    }
    Ok(())
}

/// The guard's clauses, and behind them the rules' clauses that bear on some variables; these have every variable of both.
/// The variables are the subjects from `components` on. The error is out of memory.
pub(crate) fn with_relevant(
    alloc: Global,
    components: u16,
    rules: &[RuleClause],
    guard: Clauses,
) -> Result<Clauses, AllocError>
    requires rules { AreRulesBelow (length guard.sizes) rules.now }
    requires guard { AllBelow (length guard.sizes) guard.clauses }
    ensures sizes { IfOk result (λ r. r.sizes ≡ guard.sizes) }
    ensures relevant { IfOk result (λ r.
        IsWithRelevant components rules.now guard.clauses r.clauses) }
{
    let Clauses { sizes, mut clauses } = guard;
    let marks = marks_of(alloc, components, sizes.len(), rules, clauses.as_slice())?;
    add_marked(alloc, rules, marks.as_slice(), &mut clauses)?;
    Ok(Clauses { sizes, clauses })
}
