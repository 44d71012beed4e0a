//! What stands between two parentheses: conjunctions, disjunctions, and a side before `implies` or `iff`.

ghost use Rattle.std.specs.Prelude.{◌≡◌, IfOk};
ghost use Rattle.formula_syntax.specs.FormulaParser.{nots, more_or_one, completed, cases_read, side_read, level_read, against};

use crate::formula_parser::{Junction, Level, Side};
use crate::read_part::{ReadPart, linked, negated};
use crate::read_parts::{ReadParts, joined, more, one};
use std::alloc::{AllocError, Global};

/// The reading behind so many words `not`.
fn negated_times(alloc: Global, times: usize, part: ReadPart) -> Result<ReadPart, AllocError>
    ensures { IfOk result (λ r. r ≡ nots times part) }
{
    let mut part = part;
    'nots: for _i in 0..times {
        part = negated(alloc, part)?;
    }
    Ok(part)
}

/// One part more, or the first.
fn more_or_one(
    alloc: Global,
    front: Option<ReadParts>,
    last: ReadPart,
) -> Result<ReadParts, AllocError>
    ensures { IfOk result (λ r. r ≡ more_or_one front last) }
{
    match front {
        None => Ok(one(last)),
        Some(parts) => more(alloc, parts, last),
    }
}

/// The level behind one more factor.
pub fn completed(alloc: Global, level: Level, factor: ReadPart) -> Result<Level, AllocError>
    ensures { IfOk result (λ r. r ≡ completed level factor) }
{
    let Level {
        left,
        any,
        all,
        nots,
    } = level;
    let factor = negated_times(alloc, nots, factor)?;
    let all = more_or_one(alloc, all, factor)?;
    Ok(Level {
        left,
        any,
        all: Some(all),
        nots: 0,
    })
}

/// The side before a level, and all its conjunctions, where its last one has ended.
pub fn cases_read(
    alloc: Global,
    level: Level,
) -> Result<(Option<Side>, Option<ReadParts>), AllocError>
    ensures { IfOk result (λ r. r ≡ (level.left, cases_read level.any level.all)) }
{
    let Level {
        left,
        any,
        all,
        nots: _,
    } = level;
    match all {
        None => Ok((left, None)),
        Some(all) => {
            let cases = more_or_one(alloc, any, joined(Junction::And, all))?;
            Ok((left, Some(cases)))
        }
    }
}

/// The side before a level, and the level's disjunction.
pub fn side_read(
    alloc: Global,
    level: Level,
) -> Result<(Option<Side>, Option<ReadPart>), AllocError>
    ensures { IfOk result (λ r. r ≡ (level.left, side_read level.any level.all)) }
{
    let (left, cases) = cases_read(alloc, level)?;
    match cases {
        None => Ok((left, None)),
        Some(cases) => Ok((left, Some(joined(Junction::Or, cases)))),
    }
}

/// The reading with the side before it.
fn against(alloc: Global, left: Option<Side>, right: ReadPart) -> Result<ReadPart, AllocError>
    ensures { IfOk result (λ r. r ≡ against left right) }
{
    match left {
        None => Ok(right),
        Some(Side { link, reading }) => linked(alloc, link, reading, right),
    }
}

/// All that a level says.
pub fn level_read(alloc: Global, level: Level) -> Result<Option<ReadPart>, AllocError>
    ensures { IfOk result (λ r. r ≡ level_read level) }
{
    let (left, right) = side_read(alloc, level)?;
    match right {
        None => Ok(None),
        Some(right) => {
            let whole = against(alloc, left, right)?;
            Ok(Some(whole))
        }
    }
}
