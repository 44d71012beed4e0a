//! The least code of a line whose words are known.

ghost use Rattle.std.specs.Prelude.{◌≡◌, not, reverse, List};
ghost use Rattle.cca_base.specs.declared.cube.Pair.{Pair};
ghost use Rattle.script_reader.specs.EventCodes.{has_item_twice};
ghost use Rattle.control_syntax.specs.Tests.{asked_pairs, begins_block, code_of, in_choose, is_choose, is_inside, is_program, is_unmatched, none_open, out_of_place, passes_limit};

use crate::block::{Block, Kind};
use crate::limits::{MAX_BLOCKS, MAX_LINES};
use crate::line::Line;
use cca_base::codes::{BROKEN_GOAL, LIMIT, MALFORMED, REPEATED_PAIR, UNMATCHED};
use cca_base::{Model, Pair};
use script_reader::{has_broken, has_item_twice};

/// Whether the line stands between `program` and `end`.
pub fn is_inside(line: &Line) -> bool
    ensures { result ≡ is_inside line.now }
{
    match line {
        Line::Program | Line::End => false,
        _ => true,
    }
}

/// Whether the line begins a block.
fn begins_block(line: &Line) -> bool
    ensures { result ≡ begins_block line.now }
{
    match line {
        Line::Seq | Line::Both | Line::Choose(_) | Line::Repeat(_) => true,
        _ => false,
    }
}

/// Whether the line is `program` a second time, or another before it.
fn is_out_of_place(started: bool, line: &Line) -> bool
    ensures { result ≡ out_of_place started line.now }
{
    match line {
        Line::Program => started,
        _ => !started,
    }
}

/// Whether the lines are too many, or the open blocks.
fn passes_limit(count: u32, blocks: usize, line: &Line) -> bool
    ensures { result ≡ passes_limit count blocks line.now }
{
    (is_inside(line) && count >= MAX_LINES) || (begins_block(line) && blocks >= MAX_BLOCKS)
}

/// The pairs that the line asks for.
fn asked_pairs(line: &Line) -> &[Pair]
    ensures { result.now ≡ asked_pairs line.now }
{
    match line {
        Line::Reach(pairs) => pairs.as_slice(),
        _ => &[],
    }
}

/// Whether the block is a `choose` before its `otherwise`.
fn is_choose(kind: &Kind) -> bool
    ensures { result ≡ is_choose kind.now }
{
    match kind {
        Kind::Choose(_) => true,
        _ => false,
    }
}

/// Whether the innermost open block is so.
fn in_choose(blocks: &[Block]) -> bool
    ensures { result ≡ in_choose (reverse blocks.now) }
{
    match blocks {
        [.., block] => is_choose(&block.kind),
        [] => false,
    }
}

/// Whether `done` closes no block, `otherwise` stands in no `choose`, or `end` inside a block.
fn is_unmatched(blocks: &[Block], line: &Line) -> bool
    ensures { result ≡ is_unmatched (reverse blocks.now) line.now }
{
    match line {
        Line::Done => blocks.is_empty(),
        Line::Otherwise => !in_choose(blocks),
        Line::End => !blocks.is_empty(),
        _ => false,
    }
}

/// The least code of a line whose words are known, behind so many lines and inside these open blocks.
#[tactic(auto, unfolding(crate::specs::Tests::code_of))]
pub fn code_of(
    model: &Model,
    started: bool,
    count: u32,
    blocks: &[Block],
    line: &Line,
) -> Option<u8>
    ensures { result ≡ code_of model.now started count (reverse blocks.now) line.now }
{
    if is_out_of_place(started, line) {
        Some(MALFORMED)
    } else if passes_limit(count, blocks.len(), line) {
        Some(LIMIT)
    } else if has_broken(model, asked_pairs(line)) {
        Some(BROKEN_GOAL)
    } else if has_item_twice(asked_pairs(line)) {
        Some(REPEATED_PAIR)
    } else if is_unmatched(blocks, line) {
        Some(UNMATCHED)
    } else {
        None
    }
}
