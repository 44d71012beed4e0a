//! What a line of a script asks for, read without taking memory.

ghost use Rattle.std.specs.Prelude.{◌≡◌, ◌∷◌, ◌≤◌, length, List};
ghost use Rattle.cca_base.specs.declared.cube.Pair.{Pair};
ghost use Rattle.text_base.specs.Lexemes.{lexeme_of};
ghost use Rattle.text_base.specs.Tokens.{tokens_of};
ghost use Rattle.script_reader.specs.Asked.{AsksWhatMayCome, asked_with, count, ended_asked, formed, is_left_out, said_with};
ghost use Rattle.script_reader.specs.EventLines.{by_tokens, event_by, event_of};
ghost use Rattle.script_reader.specs.Items.{Goal, Observe, fault_at, item_of, mirror_at, pairs_item};
ghost use Rattle.script_reader.specs.declared.named.Naming.TheVariants.{Modes, Values};

use crate::asked::Asked;
use crate::context::Context;
use crate::event_codes::mirror_code;
use crate::found::{found_in, goal_asked, observe_asked};
use crate::named::{Naming, stands_for, variable_of};
use bounded_list::BoundedList;
use cca_base::Pair;
use cca_base::codes::{MALFORMED, NAME_UNKNOWN};
use text_base::{Ahead, Kind, Token, is_lexeme};

/// This, where nothing follows.
fn ended(asked: Asked, rest: &Ahead) -> Result<Asked, u8>
    ensures { result ≡ ended_asked asked rest.now }
{
    if rest.is_empty() {
        Ok(asked)
    } else {
        Err(MALFORMED)
    }
}

/// A goal of the pairs that stand behind its word.
fn goal_in(context: &Context, rest: Ahead, pairs: &mut BoundedList<Pair>) -> Result<Asked, u8>
    requires { count Modes context.now.model ≤ pairs.old.room }
    ensures asked { asked_with pairs.new.items result ≡ formed (event_of context.now.model
        context.now.pending.now context.now.mirrored) (pairs_item Goal rest.entry) }
    ensures room { pairs.new.room ≡ pairs.old.room }
{
    match found_in(context, Naming::Modes, rest, pairs) {
        Some(found) => goal_asked(found),
        None => Err(MALFORMED),
    }
}

/// Observations of the pairs that stand behind their word.
fn observe_in(context: &Context, rest: Ahead, pairs: &mut BoundedList<Pair>) -> Result<Asked, u8>
    requires { count Values context.now.model ≤ pairs.old.room }
    ensures asked { asked_with pairs.new.items result ≡ formed (event_of context.now.model
        context.now.pending.now context.now.mirrored) (pairs_item Observe rest.entry) }
    ensures room { pairs.new.room ≡ pairs.old.room }
{
    match found_in(context, Naming::Values, rest, pairs) {
        Some(found) => observe_asked(found),
        None => Err(MALFORMED),
    }
}

/// A component put into a mode, both of which stand behind the word.
#[tactic(auto, unfolding(crate::specs::Items::fault_at))]
fn fault_in(context: &Context, rest: &Ahead) -> Result<Asked, u8>
    ensures { (pairs : List Pair) → asked_with pairs result ≡ formed (event_of context.now.model
        context.now.pending.now context.now.mirrored) (fault_at rest.now) }
{
    let Some((named, behind)) = rest.pair() else {
        return Err(MALFORMED);
    };
    if !behind.is_empty() {
        return Err(MALFORMED);
    }
    match stands_for(&context.model, Naming::Modes, &named) {
        Some(pair) => Ok(Asked::Fault(pair)),
        None => Err(NAME_UNKNOWN),
    }
}

/// A variable that is mirrored from now on, whose name stands behind the word.
#[tactic(auto, unfolding(crate::specs::Items::mirror_at))]
fn mirror_in(context: &Context, rest: &Ahead) -> Result<Asked, u8>
    ensures { (pairs : List Pair) → asked_with pairs result ≡ formed (event_of context.now.model
        context.now.pending.now context.now.mirrored) (mirror_at rest.now) }
{
    let Some((name, behind)) = rest.name_word() else {
        return Err(MALFORMED);
    };
    if !behind.is_empty() {
        return Err(MALFORMED);
    }
    let Some(v) = variable_of(&context.model, name) else {
        return Err(NAME_UNKNOWN);
    };
    match mirror_code(context, v) {
        Some(code) => Err(code),
        None => Ok(Asked::Mirror(v)),
    }
}

/// What a line asks for whose first token this is.
fn form_asked(
    context: &Context,
    first: &Token,
    rest: Ahead,
    pairs: &mut BoundedList<Pair>,
) -> Result<Asked, u8>
    requires components { count Modes context.now.model ≤ pairs.old.room }
    requires variables { count Values context.now.model ≤ pairs.old.room }
    ensures asked { asked_with pairs.new.items result ≡ formed (event_of context.now.model
        context.now.pending.now context.now.mirrored) (item_of (lexeme_of first.now ∷ rest.entry)) }
    ensures room { pairs.new.room ≡ pairs.old.room }
{
    if is_lexeme(first, Kind::Word, b"goal") {
        goal_in(context, rest, pairs)
    } else if is_lexeme(first, Kind::Word, b"clear") {
        ended(Asked::Clear, &rest)
    } else if is_lexeme(first, Kind::Word, b"observe") {
        observe_in(context, rest, pairs)
    } else if is_lexeme(first, Kind::Word, b"fault") {
        fault_in(context, &rest)
    } else if is_lexeme(first, Kind::Word, b"mirror") {
        mirror_in(context, &rest)
    } else if is_lexeme(first, Kind::Word, b"reset") {
        ended(Asked::Reset, &rest)
    } else if is_lexeme(first, Kind::Word, b"tick") {
        ended(Asked::Tick, &rest)
    } else {
        Err(MALFORMED)
    }
}

/// Whether a line whose first token this is would set or clear a goal, where none does.
fn is_left_out(goals: bool, first: &Token) -> bool
    ensures { result ≡ is_left_out goals (lexeme_of first.now) }
{
    !goals && (is_lexeme(first, Kind::Word, b"goal") || is_lexeme(first, Kind::Word, b"clear"))
}

/// The same, by whether lines set and clear goals.
#[tactic(auto, using(crate::proofs::AskedItems::left_out))]
fn item_asked(
    context: &Context,
    goals: bool,
    first: &Token,
    rest: Ahead,
    pairs: &mut BoundedList<Pair>,
) -> Result<Asked, u8>
    requires components { count Modes context.now.model ≤ pairs.old.room }
    requires variables { count Values context.now.model ≤ pairs.old.room }
    ensures asked { asked_with pairs.new.items result ≡ formed (event_by goals context.now.model
        context.now.pending.now context.now.mirrored) (item_of (lexeme_of first.now ∷ rest.entry)) }
    ensures room { pairs.new.room ≡ pairs.old.room }
{
    if is_left_out(goals, first) {
        Err(MALFORMED)
    } else {
        form_asked(context, first, rest, pairs)
    }
}

/// Reads one line of a script, without its LF, and takes no memory: what it asks for, None for a line without tokens, or the
/// least code that applies, with these observations pending and these variables mirrored. Where lines set and clear no goals,
/// one that would is malformed.
pub fn read_event_in(
    context: &Context,
    goals: bool,
    line: &[u8],
    pairs: &mut BoundedList<Pair>,
) -> Result<Option<Asked>, u8>
    requires components { length context.now.model.components ≤ pairs.old.room }
    requires variables { length context.now.model.variables ≤ pairs.old.room }
    ensures answer { said_with pairs.new.items result ≡ by_tokens (event_by goals
        context.now.model context.now.pending.now context.now.mirrored) (tokens_of line.now) }
    ensures may_come { AsksWhatMayCome context.now.model context.now.pending.now
        context.now.mirrored pairs.new.items result }
    ensures room { pairs.new.room ≡ pairs.old.room }
{
    let Some(ahead) = Ahead::of(line) else {
        return Err(MALFORMED);
    };
    match ahead.next() {
        Some((first, rest)) => item_asked(context, goals, &first, rest, pairs).map(Some),
        None => Ok(None),
    }
}
