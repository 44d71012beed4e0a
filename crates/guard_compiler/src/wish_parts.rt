//! The prime implicants of a wish that is a conjunction, from those of its parts.

ghost use Rattle.std.specs.Prelude.{◌≤◌, All, IfOk, IfSome, IsTrue, length};
ghost use Rattle.cca_base.specs.Prelude.{is_within, HasWorlds, IsRising};
ghost use Rattle.guard_compiler.specs.Conjunctions.{AddsWish, all_of};
ghost use Rattle.guard_compiler.specs.Rules.{AreRulesOf};
ghost use Rattle.guard_compiler.specs.Wishes.{AreImplicants};

use crate::rules::RuleClause;
use crate::unions::least_unions;
use crate::wishes::whole_wish;
use cca_base::{Cube, Formula, List, Model};
use prime_implicants::Primes;
use std::alloc::{AllocError, Global};

/// How many pairs of cubes are joined for one wish before it is taken as a whole: joining them takes more than a whole wish does.
const MOST_PAIRS: usize = 65_536;

/// The prime implicants of all parts together, in cube order. None, of which nothing is claimed, where a part, or the parts up
/// to one, have more than `most` on the way, or there are too many pairs of cubes to be joined. The error is out of memory.
pub(crate) fn wish_by_parts(
    alloc: Global,
    model: &Model,
    rules: &List<RuleClause>,
    parts: &[Formula],
    most: u32,
) -> Result<Option<List<Cube>>, AllocError>
    requires worlds { HasWorlds model.now }
    requires rules { AreRulesOf model.now rules.now }
    requires parts { All (λ part.
        IsTrue (is_within (length model.now.components) (length model.now.variables) part))
        parts.now }
    ensures implicants { IfOk result (λ r.
        IfSome r (AreImplicants model.now (all_of parts.now))) }
    ensures few { IfOk result (λ r. IfSome r (λ cubes. length cubes ≤ most)) }
{
    let mut pairs = MOST_PAIRS;
    let mut cubes = List::new(alloc);
    cubes.push(Cube::new(alloc))?;
    for part in parts {
        match with_wish(
            alloc,
            model,
            rules,
            cubes.as_slice(),
            part,
            most,
            &mut pairs,
        )? {
            Some(more) => cubes = more,
            None => return Ok(None),
        }
    }
    if cubes.len() > most as usize {
        return Ok(None);
    }
    Ok(Some(cubes))
}

// From the prime implicants of some parts those with one more, while pairs of cubes may be joined.
fn with_wish(
    alloc: Global,
    model: &Model,
    rules: &List<RuleClause>,
    cubes: &[Cube],
    part: &Formula,
    most: u32,
    pairs: &mut usize,
) -> Result<Option<List<Cube>>, AllocError>
    requires worlds { HasWorlds model.now }
    requires rules { AreRulesOf model.now rules.now }
    requires part { IsTrue (is_within (length model.now.components) (length model.now.variables)
        part.now) }
    requires cubes { All IsRising cubes.now }
    ensures { IfOk result (λ r. IfSome r (AddsWish model.now part.now cubes.now)) }
{
    match whole_wish(alloc, model, rules, part, most)? {
        Primes::Every(others) => {
            *pairs = pairs.saturating_sub(cubes.len().saturating_mul(others.len()));
            if *pairs == 0 {
                return Ok(None);
            }
            let all = least_unions(alloc, cubes, others.as_slice(), most as usize)?;
            Ok(all)
        }
        Primes::More => Ok(None),
    }
}
