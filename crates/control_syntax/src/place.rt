//! Where the next part of a program goes. Nothing is changed where memory runs out.

ghost use Rattle.std.specs.Prelude.{◌≡◌, ◌++◌, ◌∷◌, [], List, OnErr, OnOk, reverse};
ghost use Rattle.control_syntax.specs.declared.block.Block.{Block};
ghost use Rattle.control_syntax.specs.declared.part.Part.{Part};
ghost use Rattle.control_syntax.specs.Reading.{Place, block_part, closed_in, IsPutAround, moved, opened, placed, put, turned_block, turned_in};

use crate::block::{Block, Kind};
use crate::line::Line;
use crate::part::Part;
use cca_base::{Boxed, List};
use std::alloc::{AllocError, Global};
use std::mem;

/// Puts a part behind those of the innermost open block, or of the program where none is open.
fn put(parts: &mut List<Part>, blocks: &mut [Block], part: Part) -> Result<(), AllocError>
    ensures ok { OnOk result (placed parts.new blocks.new
        ≡ put part (placed parts.old blocks.old)) }
    ensures parts { OnErr result (parts.new ≡ parts.old) }
    ensures blocks { OnErr result (blocks.new ≡ blocks.old) }
{
    let count = blocks.len();
    if count == 0 {
        parts.push(part)
    } else {
        let block = &mut blocks[count - 1];
        block.parts.push(part)
    }
}

/// Puts a part in the place of the last one of a list.
fn set_last(parts: &mut List<Part>, part: Part)
    ensures { (x : Part) (xs : List Part) → parts.old ≡ xs ++ x ∷ [] →
        parts.new ≡ xs ++ part ∷ [] }
{
    let count = parts.len();
    if count > 0 {
        parts.set(count - 1, part);
    }
}

/// Puts a part in the place of the one that was put last.
fn put_again(parts: &mut List<Part>, blocks: &mut Vec<Block>, part: Part)
    ensures { (x : Part) (place : Place) → placed parts.old blocks.old.items ≡ put x place →
        placed parts.new blocks.new.items ≡ put part place }
{
    let count = blocks.len();
    if count == 0 {
        set_last(parts, part);
    } else {
        let block = &mut blocks[count - 1];
        set_last(&mut block.parts, part);
    }
}

/// Puts a part behind those of what stands around the innermost open block.
fn put_around(parts: &mut List<Part>, blocks: &mut Vec<Block>, part: Part) -> Result<(), AllocError>
    ensures ok { OnOk result ((front : List Block) (b : Block) →
        blocks.old.items ≡ front ++ b ∷ [] →
        IsPutAround part (placed parts.old front) b parts.new blocks.new.items) }
    ensures parts { OnErr result (parts.new ≡ parts.old) }
    ensures blocks { OnErr result (blocks.new.items ≡ blocks.old.items) }
{
    let count = blocks.len();
    if count < 2 {
        parts.push(part)
    } else {
        let block = &mut blocks[count - 2];
        block.parts.push(part)
    }
}

/// The part that a block is whose lines have all been read. It stands in these boxes where it needs any.
fn block_part(alloc: Global, block: Block, mut first: Boxed<Part>, mut second: Boxed<Part>) -> Part
    ensures { result ≡ block_part block.kind block.parts }
{
    let Block { kind, parts } = block;
    match kind {
        Kind::Seq => Part::Seq(parts),
        Kind::Both => Part::Both(parts),
        Kind::Choose(formula) => {
            first.set(Part::Seq(parts));
            second.set(Part::Seq(List::new(alloc)));
            Part::Choose(formula, first, second)
        }
        Kind::Otherwise(formula, before) => {
            first.set(Part::Seq(before));
            second.set(Part::Seq(parts));
            Part::Choose(formula, first, second)
        }
        Kind::Repeat(rounds) => {
            first.set(Part::Seq(parts));
            Part::Repeat(rounds, first)
        }
    }
}

/// Ends the innermost open block: it is a part of what stands around it. All memory is taken before anything is changed.
fn close(alloc: Global, parts: &mut List<Part>, blocks: &mut Vec<Block>) -> Result<(), AllocError>
    ensures ok { OnOk result (placed parts.new blocks.new.items
        ≡ closed_in parts.old (reverse blocks.old.items)) }
    ensures parts { OnErr result (parts.new ≡ parts.old) }
    ensures blocks { OnErr result (blocks.new.items ≡ blocks.old.items) }
{
    let count = blocks.len();
    if count == 0 {
        return Ok(());
    }
    let first = Boxed::new(alloc, Part::Seq(List::new(alloc)))?;
    let second = Boxed::new(alloc, Part::Seq(List::new(alloc)))?;
    put_around(parts, blocks, Part::Seq(List::new(alloc)))?;
    if let Some(block) = blocks.pop() {
        let part = block_part(alloc, block, first, second);
        put_again(parts, blocks, part);
    }
    Ok(())
}

/// The block behind its `otherwise`.
fn turned(alloc: Global, block: Block) -> Block
    ensures { result ≡ turned_block block.kind block.parts }
{
    let Block { kind, parts } = block;
    match kind {
        Kind::Choose(formula) => Block {
            kind: Kind::Otherwise(formula, parts),
            parts: List::new(alloc),
        },
        Kind::Seq => Block {
            kind: Kind::Seq,
            parts,
        },
        Kind::Both => Block {
            kind: Kind::Both,
            parts,
        },
        Kind::Otherwise(formula, before) => Block {
            kind: Kind::Otherwise(formula, before),
            parts,
        },
        Kind::Repeat(rounds) => Block {
            kind: Kind::Repeat(rounds),
            parts,
        },
    }
}

/// Begins the second half of the innermost open block, where that is a `choose`.
fn turn(alloc: Global, blocks: &mut [Block])
    ensures { reverse blocks.new ≡ turned_in (reverse blocks.old) }
{
    let count = blocks.len();
    if count > 0 {
        let block = &mut blocks[count - 1];
        let empty = Block {
            kind: Kind::Seq,
            parts: List::new(alloc),
        };
        let before = mem::replace(block, empty);
        *block = turned(alloc, before);
    }
}

/// Opens a block.
fn open_block(alloc: Global, blocks: &mut Vec<Block>, kind: Kind) -> Result<(), AllocError>
    ensures ok { OnOk result ((parts : List Part) →
        placed parts blocks.new.items ≡ opened kind (placed parts blocks.old.items)) }
    ensures err { OnErr result (blocks.new.items ≡ blocks.old.items) }
{
    blocks.push(Block {
        kind,
        parts: List::new(alloc),
    })?;
    Ok(())
}

/// Moves the place behind a line between `program` and `end`.
pub fn move_place(
    alloc: Global,
    parts: &mut List<Part>,
    blocks: &mut Vec<Block>,
    line: Line,
) -> Result<(), AllocError>
    ensures ok { OnOk result (placed parts.new blocks.new.items
        ≡ moved line (placed parts.old blocks.old.items)) }
    ensures parts { OnErr result (parts.new ≡ parts.old) }
    ensures blocks { OnErr result (blocks.new.items ≡ blocks.old.items) }
{
    match line {
        Line::Reach(pairs) => put(parts, &mut blocks[..], Part::Reach(pairs)),
        Line::Await(formula) => put(parts, &mut blocks[..], Part::Await(formula)),
        Line::Seq => open_block(alloc, blocks, Kind::Seq),
        Line::Both => open_block(alloc, blocks, Kind::Both),
        Line::Choose(formula) => open_block(alloc, blocks, Kind::Choose(formula)),
        Line::Repeat(rounds) => open_block(alloc, blocks, Kind::Repeat(rounds)),
        Line::Otherwise => {
            turn(alloc, &mut blocks[..]);
            Ok(())
        }
        Line::Done => close(alloc, parts, blocks),
        Line::Program | Line::End => Ok(()),
    }
}
