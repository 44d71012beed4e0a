//! A program's parts laid out as one list of nodes, with the marks of the start.

ghost use Rattle.std.specs.Prelude.{◌≡◌, false, map, reverse, IfOk};
ghost use Rattle.control_program.specs.Flat.{laid, several_trees};
ghost use Rattle.control_program.specs.Marks.{Tree};
ghost use Rattle.control_program.specs.Opened.{opened};
ghost use Rattle.control_program.specs.Places.{IsInner, fresh_mark, fresh_node};

use crate::nodes::{Kind, Mark, Node, Task, fresh_mark};
use cca_base::List;
use control_syntax::Part;
use std::alloc::{AllocError, Global};

/// Puts a part's nodes behind others, the last one first: a node stands behind those of its parts. The error is out of memory.
#[cycle(laying)]
pub(crate) fn lay(part: Part, nodes: &mut Vec<Node, Global>) -> Result<(), AllocError>
    ensures { IfOk result (λ _. map fresh_node (reverse nodes.new.items)
        ≡ laid (opened part) (map fresh_node (reverse nodes.old.items))) }
{
    let start = nodes.len();
    let kind = lay_inner(part, nodes)?;
    let size = nodes.len() - start + 1;
    nodes.push(Node { kind, size })?;
    Ok(())
}

/// Puts the nodes of the parts in a part behind others. The answer is what the part's own node does; the error is out of memory.
#[cycle(laying)]
fn lay_inner(part: Part, nodes: &mut Vec<Node, Global>) -> Result<Kind, AllocError>
    ensures { IfOk result (λ kind. IsInner (opened part) (map fresh_node (reverse nodes.old.items))
        kind (map fresh_node (reverse nodes.new.items))) }
{
    match part {
        Part::Reach(pairs) => Ok(Kind::Once(Task::Reach(pairs))),
        Part::Await(formula) => Ok(Kind::Once(Task::Await(formula))),
        Part::Seq(parts) => lay_all(true, parts, nodes),
        Part::Both(parts) => lay_all(false, parts, nodes),
        Part::Choose(formula, first, second) => {
            lay(second.into_inner(), nodes)?;
            lay(first.into_inner(), nodes)?;
            Ok(Kind::Choose(formula))
        }
        Part::Repeat(number, body) => {
            lay(body.into_inner(), nodes)?;
            Ok(Kind::Repeat(number))
        }
    }
}

/// Puts the nodes of parts behind others, those of the last part first. The answer is what the node of all of them does;
/// the error is out of memory.
#[cycle(laying)]
fn lay_all(
    in_order: bool,
    parts: List<Part>,
    nodes: &mut Vec<Node, Global>,
) -> Result<Kind, AllocError>
    ensures { IfOk result (λ kind.
        IsInner (Tree.Parts in_order false (several_trees (map opened parts)))
        (map fresh_node (reverse nodes.old.items)) kind (map fresh_node (reverse nodes.new.items))) }
{
    let count = parts.len();
    let mut parts = parts;
    while let Some(part) = parts.pop() {
        lay(part, nodes)?;
    }
    Ok(Kind::Once(Task::Parts(in_order, count)))
}

/// The marks at the start. The error is out of memory.
pub(crate) fn fresh_marks(alloc: Global, nodes: &[Node]) -> Result<List<Mark>, AllocError>
    ensures { IfOk result (λ marks. marks ≡ map fresh_mark nodes.now) }
{
    let mut marks = List::new(alloc);
    for node in nodes {
        marks.push(fresh_mark(node))?;
    }
    Ok(marks)
}
