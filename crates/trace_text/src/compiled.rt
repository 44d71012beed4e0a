//! What is shown of a compiled model.

ghost use Rattle.std.specs.Prelude.{◌≡◌, ◌++◌, ◌∷◌, [], codes, IfOk};
ghost use Rattle.std.specs.Fmt.{decimal};
ghost use Rattle.byte_buffer.specs.Outs.{Pushes};
ghost use Rattle.trace_text.specs.Compiled.{order_line, bound_line, bound_lines, cube_line, move_lines, ways_lines, compiled_lines, show_text};
ghost use Rattle.trace_text.specs.Names.{move_text};

use crate::names::{push_components, push_field, push_move, push_pairs};
use byte_buffer::Out;
use cca_base::{Compiled, Component, Cube, List, Model, Move};
use model_syntax::print_model;
use std::alloc::{AllocError, Global};

fn push_order(out: &mut Out, components: &[Component], order: &[u16]) -> Result<(), AllocError>
    ensures { Pushes (order_line components.now order.now) out.old result out.new }
{
    out.push(b"order")?;
    push_components(out, components, order)?;
    out.push_byte(b'\n')
}

/// A number that ends its line.
fn push_last_number(out: &mut Out, n: u64) -> Result<(), AllocError>
    ensures { Pushes (32 ∷ decimal n ++ 10 ∷ []) out.old result out.new }
{
    push_field(out, b" ", n)?;
    out.push_byte(b'\n')
}

fn push_bound(out: &mut Out, component: &Component, bound: u64) -> Result<(), AllocError>
    ensures { Pushes (bound_line component.now bound) out.old result out.new }
{
    out.push(b"bound ")?;
    out.push(component.name.bytes())?;
    push_last_number(out, bound)
}

fn push_bounds(out: &mut Out, components: &[Component], bounds: &[u64]) -> Result<(), AllocError>
    ensures { Pushes (bound_lines components.now bounds.now) out.old result out.new }
{
    for (i, component) in components.iter().enumerate() {
        let Some(bound) = bounds.get(i) else {
            return Ok(());
        };
        push_bound(out, component, *bound)?;
    }
    Ok(())
}

fn push_cube(out: &mut Out, components: &[Component], cube: &Cube) -> Result<(), AllocError>
    ensures { Pushes (cube_line components.now cube.now) out.old result out.new }
{
    out.push(b"cube")?;
    push_pairs(out, components, cube.as_slice())?;
    out.push_byte(b'\n')
}

/// A move, and the number of its prime implicants.
fn push_move_line(out: &mut Out, model: &Model, x: &Move, count: u64) -> Result<(), AllocError>
    ensures { Pushes (codes "ways " ++ move_text model.now x.now ++ 32 ∷ decimal count ++ 10 ∷ []) out.old result out.new }
{
    out.push(b"ways ")?;
    push_move(out, model, x)?;
    push_last_number(out, count)
}

/// A move, the number of its prime implicants, and then each of them.
#[tactic(auto, unfolding(crate::specs::Compiled::move_lines))]
fn push_move_lines(out: &mut Out, model: &Model, x: &Move, cubes: &[Cube]) -> Result<(), AllocError>
    ensures { Pushes (move_lines model.now x.now cubes.now) out.old result out.new }
{
    let components = model.components().as_slice();
    push_move_line(out, model, x, cubes.len() as u64)?;
    for cube in cubes {
        push_cube(out, components, cube)?;
    }
    Ok(())
}

fn push_ways(
    out: &mut Out,
    model: &Model,
    moves: &[Move],
    ways: &[List<Cube>],
) -> Result<(), AllocError>
    ensures { Pushes (ways_lines model.now moves.now ways.now) out.old result out.new }
{
    for (i, x) in moves.iter().enumerate() {
        let Some(cubes) = ways.get(i) else {
            return Ok(());
        };
        push_move_lines(out, model, x, cubes.as_slice())?;
    }
    Ok(())
}

/// Puts the order, the bounds and the prime implicants of a compiled model behind what was there.
fn push_compiled(out: &mut Out, compiled: &Compiled) -> Result<(), AllocError>
    ensures { Pushes (compiled_lines compiled.now) out.old result out.new }
{
    let model = compiled.model();
    let components = model.components().as_slice();
    push_order(out, components, compiled.order().as_slice())?;
    push_bounds(out, components, compiled.bounds().as_slice())?;
    push_ways(
        out,
        model,
        model.moves().as_slice(),
        compiled.ways().as_slice(),
    )
}

/// The whole text that is shown of an accepted model: its lines in their one spelling, the order, the bounds, and each
/// move's prime implicants. The error is out of memory.
pub fn show_lines(alloc: Global, compiled: &Compiled) -> Result<List<u8>, AllocError>
    ensures { IfOk result (λ text. text ≡ show_text compiled.now) }
{
    let model = print_model(alloc, compiled.model())?;
    let mut out = Out::new(alloc);
    out.push(model.as_slice())?;
    push_compiled(&mut out, compiled)?;
    Ok(List::of(out.into_vec()))
}
