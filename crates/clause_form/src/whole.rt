//! The clauses of a model's rules, and of a formula that is denied.

ghost use Rattle.std.specs.Prelude.{◌≡◌, ◌==◌, ◌+◌, ◌-◌, ◌<◌, ◌≤◌, ◌^◌, length, slice_index, All, IfOk, OnOk, IsTrue};
ghost use Rattle.std.specs.List.{list_all};
ghost use Rattle.std.specs.Option.{ForSome, option_copied};
ghost use Rattle.cca_base.specs.Prelude.{is_within, truth, HasMode};
ghost use Rattle.cca_base.specs.declared.limits.TheConstants.{MAX_CHOICES, MAX_SUBJECTS};
ghost use Rattle.clause_form.specs.Formulas.{Adds, agrees, has_fixed, is_denied, AreClausesOf, AreDenying};
ghost use Rattle.clause_form.specs.Clauses.{AllBelow};

use crate::clause::{Clause, Clauses, Literal};
use crate::convert::clauses_where;
use crate::sizes::{Sizes, sizes_of};
use cca_base::{Formula, List, Model, Pair, ValueSet};
use std::alloc::{AllocError, Global};

/// Adds clauses that say that the formula is as it is wanted.
fn add_formula(
    alloc: Global,
    components: u16,
    sizes: &Sizes,
    formula: &Formula,
    wanted: bool,
    clauses: &mut List<Clause>,
) -> Result<(), AllocError>
    requires split { components ≤ length sizes.now }
    requires numbered { length sizes.now ≤ MAX_SUBJECTS }
    requires within { IsTrue (is_within components (length sizes.now - components) formula.now) }
    requires below { AllBelow (length sizes.now) clauses.old }
    ensures adds { OnOk result (Adds components sizes.now (λ modes values.
        agrees wanted (truth modes values formula.now)) clauses.old clauses.new) }
    ensures below { OnOk result (AllBelow (length sizes.now) clauses.new) }
{
    for clause in clauses_where(alloc, components, sizes, formula, wanted)? {
        clauses.push(clause)?;
    }
    Ok(())
}

/// Adds clauses that say that each formula is true.
fn add_rules(
    alloc: Global,
    components: u16,
    sizes: &Sizes,
    rules: &[Formula],
    clauses: &mut List<Clause>,
) -> Result<(), AllocError>
    requires split { components ≤ length sizes.now }
    requires numbered { length sizes.now ≤ MAX_SUBJECTS }
    requires within { All (λ rule.
        IsTrue (is_within components (length sizes.now - components) rule)) rules.now }
    requires below { AllBelow (length sizes.now) clauses.old }
    ensures adds { OnOk result (Adds components sizes.now (λ modes values.
        list_all (truth modes values) rules.now) clauses.old clauses.new) }
    ensures below { OnOk result (AllBelow (length sizes.now) clauses.new) }
{
    for rule in rules {
        add_formula(alloc, components, sizes, rule, true, clauses)?;
    }
    Ok(())
}

/// Adds the clause that says that the component has its mode.
fn add_pair(
    alloc: Global,
    components: u16,
    sizes: &Sizes,
    pair: Pair,
    clauses: &mut List<Clause>,
) -> Result<(), AllocError>
    requires mode { pair.value < MAX_CHOICES }
    requires inside { pair.item < components }
    requires split { components ≤ length sizes.now }
    requires below { AllBelow (length sizes.now) clauses.old }
    ensures adds { OnOk result (Adds components sizes.now (λ modes values.
        slice_index modes pair.item == pair.value) clauses.old clauses.new) }
    ensures below { OnOk result (AllBelow (length sizes.now) clauses.new) }
{
    let mut literals = List::new(alloc);
    literals.push(Literal {
        subject: pair.item,
        values: ValueSet::empty().with(pair.value),
    })?;
    clauses.push(Clause { literals })
}

/// Adds what says that the fixed pair stands, if there is one.
fn add_fixed(
    alloc: Global,
    components: u16,
    sizes: &Sizes,
    fixed: Option<Pair>,
    clauses: &mut List<Clause>,
) -> Result<(), AllocError>
    requires fixed { ForSome fixed (λ p. (p.item < components) × (p.value < MAX_CHOICES)) }
    requires split { components ≤ length sizes.now }
    requires below { AllBelow (length sizes.now) clauses.old }
    ensures adds { OnOk result (Adds components sizes.now (λ modes values.
        has_fixed modes fixed) clauses.old clauses.new) }
    ensures below { OnOk result (AllBelow (length sizes.now) clauses.new) }
{
    match fixed {
        Some(pair) => add_pair(alloc, components, sizes, pair, clauses),
        None => Ok(()),
    }
}

/// Adds what says that the denied formula is false, if there is one.
fn add_denied(
    alloc: Global,
    components: u16,
    sizes: &Sizes,
    denied: Option<&Formula>,
    clauses: &mut List<Clause>,
) -> Result<(), AllocError>
    requires split { components ≤ length sizes.now }
    requires numbered { length sizes.now ≤ MAX_SUBJECTS }
    requires within { ForSome denied (λ f.
        IsTrue (is_within components (length sizes.now - components) f.now)) }
    requires below { AllBelow (length sizes.now) clauses.old }
    ensures adds { OnOk result (Adds components sizes.now (λ modes values.
        is_denied modes values (option_copied denied.entry)) clauses.old clauses.new) }
    ensures below { OnOk result (AllBelow (length sizes.now) clauses.new) }
{
    match denied {
        Some(formula) => add_formula(alloc, components, sizes, formula, false, clauses),
        None => Ok(()),
    }
}

/// Signed clauses over the model's components, and after them its variables. They are all true exactly where every rule
/// of the model is true, the fixed component stands in its mode, and the denied formula is false. The error is want of
/// memory.
pub fn clauses_of(
    alloc: Global,
    model: &Model,
    fixed: Option<Pair>,
    denied: Option<&Formula>,
) -> Result<Clauses, AllocError>
    requires fixed { ForSome fixed (λ p. HasMode model.now p.item p.value) }
    requires denied { ForSome denied (λ f.
        IsTrue (is_within (length model.now.components) (length model.now.variables) f.now)) }
    ensures { IfOk result (AreClausesOf model.now fixed (option_copied denied.entry)) }
{
    let components = model.components().len() as u16;
    let sizes = sizes_of(alloc, model)?;
    let mut clauses = List::new(alloc);
    add_rules(
        alloc,
        components,
        &sizes,
        model.rules().as_slice(),
        &mut clauses,
    )?;
    add_fixed(alloc, components, &sizes, fixed, &mut clauses)?;
    add_denied(alloc, components, &sizes, denied, &mut clauses)?;
    Ok(Clauses { sizes, clauses })
}

/// Signed clauses over the model's components, and after them its variables. They are all true exactly where the formula
/// is false. The error is out of memory.
pub fn denied_clauses(
    alloc: Global,
    model: &Model,
    formula: &Formula,
) -> Result<Clauses, AllocError>
    requires { IsTrue (is_within (length model.now.components) (length model.now.variables)
        formula.now) }
    ensures { IfOk result (AreDenying model.now formula.now) }
{
    let components = model.components().len() as u16;
    let sizes = sizes_of(alloc, model)?;
    let mut clauses = List::new(alloc);
    add_formula(alloc, components, &sizes, formula, false, &mut clauses)?;
    Ok(Clauses { sizes, clauses })
}
