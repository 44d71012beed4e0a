//! What holds of all lines of control programs.

ghost use Rattle.control_syntax.specs.Codes.{LinesAreOne};
ghost use Rattle.control_syntax.specs.Examples.{FormsInBytes, GoesRoundOnce, NumbersOfPrograms, OneOfEach};
ghost use Rattle.control_syntax.specs.Matched.{LimitsCountLines, UnmatchedByLines};
ghost use Rattle.control_syntax.specs.Written.{ProgramsAreOne, ProgramsAreRead};

/// Behind what was read a line says one thing, or is refused with one code.
pub fn lines_are_one()
    ensures { LinesAreOne }
{}

/// Lines of bytes are read to the end of a program exactly where they are that program, as it is written.
pub fn programs_are_read()
    ensures { ProgramsAreRead }
{}

/// Lines are one program.
pub fn programs_are_one()
    ensures { ProgramsAreOne }
{}

/// When `done`, `otherwise` and `end` are unmatched, and what the limits count, by the lines that were read.
pub fn blocks_by_lines()
    ensures unmatched { UnmatchedByLines }
    ensures counts { LimitsCountLines }
{}

/// Each form of a line in bytes, a program with one part of each kind, the limits and the codes by their numbers.
pub fn forms()
    ensures bytes { FormsInBytes }
    ensures each { OneOfEach }
    ensures numbers { NumbersOfPrograms }
    ensures once { GoesRoundOnce }
{}
