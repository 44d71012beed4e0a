//! What the lines of a form do.

ghost use Rattle.line_forms.specs.LinesDo.{LinesAreDone};

use crate::line_form::LineForm;

/// What the machine of a form does for lines is what its lines do, and that is one; and what bytes alone decide is what their whole
/// lines do.
pub fn lines_are_done<L: LineForm<I>, I>()
    ensures { LinesAreDone L.means }
{}
