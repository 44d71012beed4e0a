//! What the numbers of names and of reports say.

ghost use Rattle.model_numbers.specs.NumberLaws.{CountsAreSmall, NamesAreNumbers, NamesAreReadAlike, NoModeIsNone, NumbersPrint};

/// The number of the name of a number is that number, and the name of the number of a name is that name.
#[tactic(auto, using(crate::proofs::NamesAreNumbers::names_are_numbers))]
pub fn names_are_numbers()
    ensures { NamesAreNumbers }
{}

/// A name has the numbers that it has in a line of a script.
pub fn names_are_read_alike()
    ensures { NamesAreReadAlike }
{}

/// The count of an accepted model's names fits 32 bits, and `NO_MODE` is no mode.
pub fn numbers_fit()
    ensures counts { CountsAreSmall }
    ensures no_mode { NoModeIsNone }
{}

/// What is printed of a report is made of its numbers and of their names.
#[tactic(auto, using(crate::proofs::NumbersPrint::numbers_print))]
pub fn numbers_print()
    ensures { NumbersPrint }
{}
