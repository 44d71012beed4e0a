//! What `program` prints is the fixed trace of its lines' events, with those that the control program puts in.

ghost use Rattle.program_form.specs.ProgramMeaning.{ProgramsAreTold, ProgramsAreTraced};
ghost use Rattle.program_form.specs.PutInLaws.{AsksGoal, DoneLines, EndsInItsTurn, EndsOnce, OnlyGoalsArePut, OthersPass, PutInSplits, ResetsBeginAgain, TurnGoalIsInForce, TurnsAtStart, TurnsByReport};
ghost use Rattle.program_form.specs.WrittenPrograms.{LinesSetNoGoal, ProgramsAreWritten};

/// What the machine prints for an input is what is told of its program's run, and the other way round.
#[tactic(auto, using(crate::proofs::ProgramsTold::programs_are_told))]
pub fn programs_are_told()
    ensures { ProgramsAreTold }
{}

/// Lines say a program exactly where the first of them are that program, as it is written; the later ones set no goal.
pub fn programs_are_written()
    ensures written { ProgramsAreWritten }
    ensures no_goal { LinesSetNoGoal }
{}

/// What is told of a program's run is the fixed trace of the lines' events, with those that the program puts in; it keeps the promises.
#[tactic(auto, using(crate::proofs::ProgramsTraced::programs_are_traced))]
pub fn programs_are_traced()
    ensures { ProgramsAreTraced }
{}

/// What a program puts in before ticks, and when it is said to have ended.
pub fn put_in()
    ensures asks { AsksGoal }
    ensures first { TurnsAtStart }
    ensures next { TurnsByReport }
    ensures again { ResetsBeginAgain }
    ensures others { OthersPass }
    ensures turn { EndsInItsTurn }
    ensures once { EndsOnce }
    ensures splits { PutInSplits }
    ensures only { OnlyGoalsArePut }
    ensures in_force { TurnGoalIsInForce }
    ensures lines { DoneLines }
{}
