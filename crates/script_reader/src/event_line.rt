//! Lines of a script, read one by one.

ghost use Rattle.std.specs.Prelude.{◌≡◌, ◌≤◌, length, IfOk};
ghost use Rattle.text_base.specs.Tokens.{tokens_of};
ghost use Rattle.script_reader.specs.Asked.{event_with};
ghost use Rattle.script_reader.specs.EventLines.{AnswersAs, AnswersWhatMayCome, by_tokens, event_by, event_line};

use crate::asked::Asked;
use crate::asking::read_event_in;
use crate::context::Context;
use bounded_list::BoundedList;
use cca_base::{Event, List, Model, Pair, Seen, Stop, VarSet};
use formula_syntax::NamedModel;
use std::alloc::{AllocError, Global};

/// The event that is asked for, where these are its pairs.
fn event_with(asked: Asked, pairs: BoundedList<Pair>) -> Event
    ensures { result ≡ event_with pairs.items asked }
{
    match asked {
        Asked::Goal => Event::Goal(List::of(pairs.into_vec())),
        Asked::Clear => Event::Clear,
        Asked::Observe => Event::Observe(List::of(pairs.into_vec())),
        Asked::Fault(pair) => Event::Fault(pair),
        Asked::Mirror(v) => Event::Mirror(v),
        Asked::Reset => Event::Reset,
        Asked::Tick => Event::Tick,
    }
}

/// An empty list that has room for a pair of each component or of each variable.
fn pairs_for(alloc: Global, model: &Model) -> Result<BoundedList<Pair>, AllocError>
    ensures components { IfOk result (λ pairs. length model.now.components ≤ pairs.room) }
    ensures variables { IfOk result (λ pairs. length model.now.variables ≤ pairs.room) }
{
    let components = model.components().len();
    let variables = model.variables().len();
    let room = if components < variables {
        variables
    } else {
        components
    };
    BoundedList::with_room(alloc, room)
}

/// Reads one line of a script, without its LF: the event that it asks for, or None for a line without tokens. The refusal
/// has the least code that applies, with these observations pending and these variables mirrored; where lines set and clear no
/// goals, one that would is malformed.
pub fn read_event_by(
    alloc: Global,
    context: &Context,
    goals: bool,
    line: &[u8],
) -> Result<Option<Event>, Stop>
    ensures answer { AnswersAs result (by_tokens (event_by goals context.now.model
        context.now.pending.now context.now.mirrored) (tokens_of line.now)) }
    ensures may_come { AnswersWhatMayCome context.now.model context.now.pending.now
        context.now.mirrored result }
{
    let mut pairs = pairs_for(alloc, context.model.model())?;
    match read_event_in(context, goals, line, &mut pairs) {
        Ok(Some(asked)) => Ok(Some(event_with(asked, pairs))),
        Ok(None) => Ok(None),
        Err(code) => Err(Stop::refused(code)),
    }
}

/// As `read_event_by`, of a script whose lines set and clear goals. Names are found by a walk over the model.
pub fn read_event(
    alloc: Global,
    line: &[u8],
    model: &Model,
    pending: &Seen,
    mirrored: VarSet,
) -> Result<Option<Event>, Stop>
    ensures answer { AnswersAs result (event_line model.now pending.now.pairs mirrored line.now) }
    ensures may_come { AnswersWhatMayCome model.now pending.now.pairs mirrored result }
{
    read_named_event(alloc, line, NamedModel::of_model(model), pending, mirrored)
}

/// The same for a model with its names.
#[tactic(auto, unfolding(crate::specs::EventLines::event_line))]
pub fn read_named_event(
    alloc: Global,
    line: &[u8],
    model: NamedModel,
    pending: &Seen,
    mirrored: VarSet,
) -> Result<Option<Event>, Stop>
    ensures answer { AnswersAs result (event_line model.entry pending.now.pairs mirrored line.now) }
    ensures may_come { AnswersWhatMayCome model.entry pending.now.pairs mirrored result }
{
    let context = Context {
        model,
        pending: pending.pairs.as_slice(),
        mirrored,
    };
    read_event_by(alloc, &context, true, line)
}
