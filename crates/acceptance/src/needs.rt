//! Which components each component needs: those that its moves' prime implicants name.

ghost use Rattle.std.specs.Prelude.{◌<◌, ◌≤◌, All, IfOk, length};
ghost use Rattle.cca_base.specs.Prelude.{AreExactly, IsSet, WellFormed};
ghost use Rattle.cca_base.specs.declared.limits.TheConstants.{MAX_ROWS};
ghost use Rattle.causal_graph.specs.Laws.{AreNeedsOf};
ghost use Rattle.causal_graph.specs.Search.{Marks};
ghost use Rattle.acceptance.specs.AllWays.{AreAllWays};
ghost use Rattle.acceptance.specs.Marks.{AddsMarks, AreNeedsMarked, OccursIn, components_of};

use cca_base::{Cube, List, Model, Pair};
use std::alloc::{AllocError, Global};

/// Sets the marks of the pairs' components.
fn mark_cube(pairs: &[Pair], marks: &mut [bool])
    requires { All (λ p. p.item < length marks.old) pairs.now }
    ensures { Marks (components_of pairs.now) marks.old marks.new }
{
    for pair in pairs {
        marks[pair.item as usize] = true;
    }
}

/// Sets the marks of the components that occur in the cubes.
fn mark_cubes(cubes: &[Cube], marks: &mut [bool])
    requires { All (λ cube. All (λ p. p.item < length marks.old) cube) cubes.now }
    ensures { AddsMarks (OccursIn cubes.now) marks.old marks.new }
{
    for cube in cubes {
        mark_cube(cube.as_slice(), marks);
    }
}

/// For each component, whether it occurs in a prime implicant of a move of `c`.
fn marks_of(
    alloc: Global,
    model: &Model,
    ways: &List<List<Cube>>,
    component: usize,
) -> Result<Vec<bool>, AllocError>
    requires { AreAllWays model.now ways.now }
    ensures { IfOk result (λ v. AreNeedsMarked model.now component v.items) }
{
    let mut marks = vec![in alloc; false; model.components().len()]?;
    for (i, the_move) in model.moves().as_slice().iter().enumerate() {
        if the_move.component as usize == component {
            mark_cubes(ways.get(i).as_slice(), marks.as_mut_slice());
        }
    }
    Ok(marks)
}

/// The numbers whose marks are set, rising.
fn listed(alloc: Global, marks: &[bool]) -> Result<List<u16>, AllocError>
    requires { length marks.now ≤ MAX_ROWS }
    ensures { IfOk result (AreExactly (IsSet marks.now)) }
{
    let mut list = List::new(alloc);
    for (u, marked) in marks.iter().enumerate() {
        if *marked {
            list.push(u as u16)?;
        }
    }
    Ok(list)
}

/// For each component the components that it needs, rising: those that occur in a prime implicant of one of its moves.
pub fn needs_of(
    alloc: Global,
    model: &Model,
    ways: &List<List<Cube>>,
) -> Result<List<List<u16>>, AllocError>
    requires { AreAllWays model.now ways.now }
    ensures needs { IfOk result (AreNeedsOf model.now) }
    ensures well_formed { WellFormed model.now }
{
    let mut rows = List::new(alloc);
    for c in 0..model.components().len() {
        let marks = marks_of(alloc, model, ways, c)?;
        rows.push(listed(alloc, marks.as_slice())?)?;
    }
    Ok(rows)
}
