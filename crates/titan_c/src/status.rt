//! The statuses of calls, as numbers.

ghost use Rattle.std.specs.Prelude.{◌≡◌, ◌≤◌};
ghost use Rattle.titan_c.specs.Statuses.{status_of};

use line_machine::End;
use run_form::RunMachine;
use titan_session::Stage;

/// It went well, and the next line may come.
pub const GOES_ON: u32 = 0;

/// The lines came to their end, and all of them were read.
pub const ENDED: u32 = 1;

/// A line was refused, or the model. No line may come any more.
pub const REFUSED: u32 = 2;

/// A printed trace was found wrong. A session of `run` never ends so.
pub const REJECTED: u32 = 3;

/// The call doesn't fit what the handle holds, or its arguments are wrong. Nothing has changed.
pub const WRONG_CALL: u32 = 4;

/// Memory ran out. The handle holds nothing any more.
pub const NO_MEMORY: u32 = 5;

/// The status of a session, by where it stands.
pub fn status_of(stage: &Stage<RunMachine>) -> u32
    ensures status { result ≡ status_of stage.now }
{
    match stage {
        Stage::Going(_) => GOES_ON,
        Stage::Over(End::Ended) => ENDED,
        Stage::Over(End::Refused) => REFUSED,
        Stage::Over(End::Rejected) => REJECTED,
        Stage::Lost => NO_MEMORY,
    }
}
