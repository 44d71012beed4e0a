//! The component of each place of a window, and the sets that each place begins with.

ghost use Rattle.std.specs.Prelude.{◌≡◌, ◌++◌, ◌+◌, ◌-◌, ◌^◌, ◌≤◌, All, IfOk, OnOk, length, map};
ghost use Rattle.cca_base.specs.Prelude.{IsComponent};
ghost use Rattle.cca_base.specs.Relations.{numbers_below};
ghost use Rattle.cca_base.specs.declared.limits.TheConstants.{MAX_CHOICES, MAX_COMPONENTS};
ghost use Rattle.trajectory_estimator.specs.Windows.{AreFirstMasks, rows_of, window_of};

use crate::query::Query;
use cca_base::{Component, List, ValueSet};
use std::alloc::{AllocError, Global};

/// Puts the numbers of so many components behind the others. The error is out of memory.
fn push_row(components: &mut List<u16>, count: usize) -> Result<(), AllocError>
    requires { count ≤ MAX_COMPONENTS }
    ensures { OnOk result (components.new ≡ components.old ++ numbers_below count) }
{
    for component in 0..count {
        components.push(component as u16)?;
    }
    Ok(())
}

/// The component of each place: rows of all components, one for the modes behind each record, and then one for the gates at each.
/// The error is out of memory.
pub(crate) fn components_of(query: &Query) -> Result<List<u16>, AllocError>
    ensures { IfOk result (λ l. l ≡ (window_of query.now).of) }
{
    let count = query.model().components().len();
    let records = query.records().len();
    let mut components = List::new(query.alloc());
    for _ in 0..records + records {
        push_row(&mut components, count)?;
    }
    Ok(components)
}

/// The set of the component's modes.
fn modes_of(component: &Component) -> u64
    requires { length component.now.modes ≤ MAX_CHOICES }
    ensures { result ≡ 2 ^ length component.now.modes - 1 }
{
    ValueSet::full(component.modes.len() as u8).bits()
}

/// Puts a set of all modes for each component behind the others. The error is out of memory.
fn push_modes(masks: &mut List<u64>, components: &[Component]) -> Result<(), AllocError>
    requires { All IsComponent components.now }
    ensures { OnOk result (masks.new ≡ masks.old ++ map (λ x. 2 ^ length x.modes - 1) components.now) }
{
    for component in components {
        masks.push(modes_of(component))?;
    }
    Ok(())
}

/// Puts a set of all that a gate may be for each component behind the others. The error is out of memory.
fn push_gates(masks: &mut List<u64>, count: usize) -> Result<(), AllocError>
    ensures { OnOk result (masks.new ≡ masks.old ++ map (λ c. 2 ^ 3 - 1) (numbers_below count)) }
{
    for _ in 0..count {
        masks.push(ValueSet::full(3).bits())?;
    }
    Ok(())
}

/// What each place may have at all. The error is out of memory.
pub(crate) fn first_masks(query: &Query) -> Result<List<u64>, AllocError>
    ensures { IfOk result (AreFirstMasks query.now) }
{
    let components = query.model().components().as_slice();
    let records = query.records().len();
    let mut masks = List::new(query.alloc());
    for _ in 0..records {
        push_modes(&mut masks, components)?;
    }
    for _ in 0..records {
        push_gates(&mut masks, components.len())?;
    }
    Ok(masks)
}
