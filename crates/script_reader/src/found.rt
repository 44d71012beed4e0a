//! What is found of a line's pairs, one by one.

ghost use Rattle.std.specs.Prelude.{◌≡◌, ◌||◌, ◌≤◌};
ghost use Rattle.text_base.specs.Pairs.{shown_pair};
ghost use Rattle.cca_base.specs.Prelude.{has};
ghost use Rattle.script_reader.specs.Asked.{IsFoundBefore, IsFoundIn, IsFoundNext, count, goal_asked, is_unfit, observe_asked};
ghost use Rattle.script_reader.specs.EventCodes.{has_item};
ghost use Rattle.script_reader.specs.Items.{only_pairs};

use crate::asked::Asked;
use crate::context::Context;
use crate::event_codes::{has_item, is_sensed};
use crate::named::{Naming, stands_for};
use bounded_list::BoundedList;
use cca_base::Pair;
use cca_base::codes::{BROKEN_GOAL, MIRRORED, NAME_UNKNOWN, NOT_SENSED, REPEATED_PAIR};
use text_base::{Ahead, Kind, NamedPair};

/// Which codes apply to a line's pairs so far.
#[derive(Clone, Copy)]
pub struct Found {
    /// A name stands for nothing; then the others say nothing.
    pub unknown: bool,
    /// A mode is broken, or a variable isn't sensed.
    pub unfit: bool,
    /// Two pairs are of one item.
    pub twice: bool,
    /// A pair's item has a pending observation.
    pub pending: bool,
    /// A pair's item is mirrored.
    pub mirrored: bool,
}

/// Whether the pair has a broken mode, or its variable isn't sensed.
fn is_unfit(context: &Context, naming: Naming, pair: Pair) -> bool
    ensures { result ≡ is_unfit naming context.now.model pair }
{
    match naming {
        Naming::Modes => context.model.model().broken(pair.item, pair.value),
        Naming::Values => !is_sensed(context.model.model(), pair.item),
    }
}

/// What is found with one pair more, behind these.
fn found_with(context: &Context, naming: Naming, pair: Pair, found: Found, pairs: &[Pair]) -> Found
    ensures unknown { result.unknown ≡ found.unknown }
    ensures unfit { result.unfit ≡ (found.unfit || is_unfit naming context.now.model pair) }
    ensures twice { result.twice ≡ (found.twice || has_item pairs.now pair.item) }
    ensures pending { result.pending
        ≡ (found.pending || has_item context.now.pending.now pair.item) }
    ensures mirrored { result.mirrored ≡ (found.mirrored || has context.now.mirrored pair.item) }
{
    Found {
        unknown: found.unknown,
        unfit: found.unfit || is_unfit(context, naming, pair),
        twice: found.twice || has_item(pairs, pair.item),
        pending: found.pending || has_item(context.pending, pair.item),
        mirrored: found.mirrored || context.mirrored.has(pair.item),
    }
}

/// What is found with one named pair more. The pair is put behind the others while no item stands twice among them.
fn note(
    context: &Context,
    naming: Naming,
    named: &NamedPair,
    found: Found,
    pairs: &mut BoundedList<Pair>,
) -> Found
    requires known { IsFoundBefore naming context.now.model context.now.pending.now
        context.now.mirrored found pairs.old.items }
    requires room { count naming context.now.model ≤ pairs.old.room }
    ensures found { IsFoundNext naming context.now.model context.now.pending.now
        context.now.mirrored (shown_pair named.now) found pairs.old.items result pairs.new.items }
    ensures room { pairs.new.room ≡ pairs.old.room }
{
    if found.unknown {
        return found;
    }
    let Some(pair) = stands_for(&context.model, naming, named) else {
        return Found {
            unknown: true,
            ..found
        };
    };
    let with_pair = found_with(context, naming, pair, found, pairs.as_slice());
    if !with_pair.twice {
        pairs.push(pair);
    }
    with_pair
}

/// What is found of pairs behind which nothing follows, or None where the line has no such form.
pub fn found_in(
    context: &Context,
    naming: Naming,
    start: Ahead,
    pairs: &mut BoundedList<Pair>,
) -> Option<Found>
    requires { count naming context.now.model ≤ pairs.old.room }
    ensures found { IsFoundIn naming context.now.model context.now.pending.now
        context.now.mirrored (only_pairs start.entry) result pairs.new.items }
    ensures room { pairs.new.room ≡ pairs.old.room }
{
    pairs.clear();
    let mut found = Found {
        unknown: false,
        unfit: false,
        twice: false,
        pending: false,
        mirrored: false,
    };
    let mut ahead = start;
    'pairs: while let Some((named, behind)) = ahead.pair() {
        found = note(context, naming, &named, found, pairs);
        if behind.is_empty() {
            return Some(found);
        }
        let Some(more) = behind.next_is(Kind::Symbol, b",") else {
            return None;
        };
        ahead = more;
    }
    None
}

/// What a goal asks for, or its least code.
pub fn goal_asked(found: Found) -> Result<Asked, u8>
    ensures { result ≡ goal_asked found }
{
    if found.unknown {
        Err(NAME_UNKNOWN)
    } else if found.unfit {
        Err(BROKEN_GOAL)
    } else if found.twice {
        Err(REPEATED_PAIR)
    } else {
        Ok(Asked::Goal)
    }
}

/// What observations ask for, or their least code.
pub fn observe_asked(found: Found) -> Result<Asked, u8>
    ensures { result ≡ observe_asked found }
{
    if found.unknown {
        Err(NAME_UNKNOWN)
    } else if found.unfit {
        Err(NOT_SENSED)
    } else if found.twice || found.pending {
        Err(REPEATED_PAIR)
    } else if found.mirrored {
        Err(MIRRORED)
    } else {
        Ok(Asked::Observe)
    }
}
