//! What a tick observes.

ghost use Rattle.std.specs.Prelude.{◌≡◌, All};
ghost use Rattle.cca_base.specs.Prelude.{HasValue, Observed};
ghost use Rattle.trace_laws.specs.Fits.{Fits};
ghost use Rattle.executive_loop.specs.Parts.{IsWorkspace};

use crate::kept_standing::KeptStanding;
use crate::workspace::Workspace;
use cca_base::Compiled;

/// Leaves the pending observations, and the mirrored variables with one value, as what was seen last.
#[tactic(auto, using(trace_laws::proofs::PendingPairs::pending_values, trace_laws::proofs::PendingPairs::pending_unmirrored))]
pub(crate) fn observe(compiled: &Compiled, standing: &KeptStanding, workspace: &mut Workspace)
    requires workspace { IsWorkspace compiled.now workspace.old }
    requires fits { Fits compiled.now standing.now }
    ensures seen { Observed compiled.now.model standing.now workspace.new.seen.items }
    ensures values { All (λ p. HasValue compiled.now.model p.item p.value) workspace.new.seen.items }
    ensures workspace { IsWorkspace compiled.now workspace.new }
    ensures policy { workspace.new.policy ≡ workspace.old.policy }
{
    workspace.worlds.observed_in(
        compiled.model(),
        &standing.plant,
        standing.mirrored,
        standing.pending(),
        &mut workspace.mirror,
        &mut workspace.seen,
    );
}
