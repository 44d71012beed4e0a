//! Marks of subjects, set one by one.

ghost use Rattle.std.specs.Prelude.{◌≡◌, ◌<◌, All, MatchBool, length};
ghost use Rattle.clause_form.specs.Clauses.{AreBelow, AllBelow, names_one};
ghost use Rattle.guard_compiler.specs.Marks.{SetsMore};
ghost use Rattle.cca_base.specs.Prelude.{is_set, unset};
ghost use Rattle.guard_compiler.specs.Naming.{IsOver};
ghost use Rattle.guard_compiler.specs.Relevant.{IsClosed, bears};
ghost use Rattle.guard_compiler.specs.Rules.{AreRulesBelow};
ghost use Rattle.std.specs.Option.{ForSome};

use crate::rules::RuleClause;
use clause_form::Clause;

/// Whether the clause names a marked subject.
fn names_marked(clause: &Clause, marks: &[bool]) -> bool
    requires { AreBelow (length marks.now) clause.now.literals }
    ensures { result ≡ names_one (is_set marks.now) clause.now }
{
    clause
        .literals
        .as_slice()
        .iter()
        .any(|literal| marks[literal.subject as usize])
}

/// Whether the rule's clause bears on the marked subjects: its owner is marked, or it has none and names a marked one.
pub(crate) fn bears(rule: &RuleClause, marks: &[bool]) -> bool
    requires below { AreBelow (length marks.now) rule.now.clause.literals }
    requires owner { ForSome rule.now.owner (λ x. x < length marks.now) }
    ensures { result ≡ bears (is_set marks.now) rule.now }
{
    match rule.owner {
        Some(x) => marks[x as usize],
        None => names_marked(&rule.clause, marks),
    }
}

/// Marks the clause's variables, which are the subjects from `components` on, and says whether one was not marked
/// before.
fn mark(clause: &Clause, components: u16, marks: &mut [bool]) -> bool
    requires { AreBelow (length marks.old) clause.now.literals }
    ensures keeps { SetsMore marks.old marks.new }
    ensures over { IsOver components (is_set marks.new) clause.now }
    ensures fresh { MatchBool result (unset marks.new < unset marks.old) (marks.new ≡ marks.old) }
{
    let mut fresh = false;
    for literal in clause.literals.as_slice() {
        let at = literal.subject as usize;
        if literal.subject >= components && !marks[at] {
            marks[at] = true;
            fresh = true;
        }
    }
    fresh
}

/// Marks the variables of all clauses.
pub(crate) fn mark_all(clauses: &[Clause], components: u16, marks: &mut [bool])
    requires { AllBelow (length marks.old) clauses.now }
    ensures keeps { SetsMore marks.old marks.new }
    ensures over { All (IsOver components (is_set marks.new)) clauses.now }
{
    for clause in clauses {
        mark(clause, components, marks);
    }
}

/// Marks the variables of each rule's clause that bears on the marked subjects, and says whether one was not marked
/// before.
pub(crate) fn spread(rules: &[RuleClause], components: u16, marks: &mut [bool]) -> bool
    requires { AreRulesBelow (length marks.old) rules.now }
    ensures keeps { SetsMore marks.old marks.new }
    ensures fresh { MatchBool result (unset marks.new < unset marks.old)
        ((marks.new ≡ marks.old) × IsClosed components rules.now (is_set marks.old)) }
{
    let mut fresh = false;
    for rule in rules {
        if bears(rule, marks) && mark(&rule.clause, components, marks) {
            fresh = true;
        }
    }
    fresh
}
