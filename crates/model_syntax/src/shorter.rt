//! No printed line is longer than the line that was read.

ghost use Rattle.model_syntax.specs.Shorter.{HeaderIsNoLonger, LinesAreNoLonger};

/// A line that is read adds no line to the printed model, or one that is not longer than itself. The printed line of the version is
/// not longer than the line with which a reading begins.
pub fn lines_are_no_longer()
    ensures items { LinesAreNoLonger }
    ensures header { HeaderIsNoLonger }
{}
