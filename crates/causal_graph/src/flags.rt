//! Flags of components, set one by one.

ghost use Rattle.std.specs.Prelude.{◌≡◌, ◌<◌, All, MatchBool, length};
ghost use Rattle.causal_graph.specs.Search.{AreNarrow, Marks};
ghost use Rattle.cca_base.specs.Prelude.{unset};

/// Sets the flag of each number of the row, and says whether one was not set before.
pub(crate) fn mark(row: &[u16], flags: &mut [bool]) -> bool
    requires { All (λ u. u < length flags.old) row.now }
    ensures marks { Marks row.now flags.old flags.new }
    ensures narrow { AreNarrow flags.old → AreNarrow flags.new }
    ensures fresh { MatchBool result (unset flags.new < unset flags.old) (flags.new ≡ flags.old) }
{
    let mut fresh = false;
    for u in row {
        let at = *u as usize;
        if !flags[at] {
            flags[at] = true;
            fresh = true;
        }
    }
    fresh
}
