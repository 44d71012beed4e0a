//! The modes of an estimate as numbers.

ghost use Rattle.std.specs.Prelude.{◌≡◌, length};
ghost use Rattle.trace_text.specs.ReportRefs.{report_read};
ghost use Rattle.model_numbers.specs.ReportNumbers.{modes_of, modes_shown};

use trace_text::{ReportRef, ShownRef};

/// What stands in place of a mode where there is none.
pub const NO_MODE: u8 = 255;

/// The modes of the estimate, or none.
fn modes_shown<'a>(report: &ReportRef<'a>) -> &'a [u8]
    ensures { result.now ≡ modes_shown (report_read report.now).shown }
{
    match &report.shown {
        ShownRef::Estimated { state, .. } => state.modes.as_slice(),
        ShownRef::Unexplained => &[],
        ShownRef::Holding => &[],
    }
}

/// Writes the number of each component's mode, by the components' numbers, and `NO_MODE` where there is no such component or no
/// estimate. It takes no memory.
pub fn write_modes(report: &ReportRef, out: &mut [u8])
    ensures { out.new ≡ modes_of (report_read report.now) (length out.old) }
{
    let modes = modes_shown(report);
    let count = modes.len().min(out.len());
    out[..count].copy_from_slice(&modes[..count]);
    out[count..].fill(NO_MODE);
}
