//! Laws of control programs: what is left of one, what its turns ask for, and what calls one after the other answer. No code of its own:
//! a runner's contract cites these definitions, and the laws hold of them.
#![tactic(auto)]

ghost use Rattle.control_laws.specs.Examples.{BranchesEnd, ChoosesOnceInARound, EmptyEndsInATurn, FalseTakesSecond, FirstBranchWins, ResetBeginsAgain, RoundsTakeTurns, TrueTakesFirst};
ghost use Rattle.control_laws.specs.Laws.{AsksOfProgram, Awaits, ChoosesByFormula, ControlsOn, EmptyEnds, EndsSilently, FirstOfEach, GoalOfTurn, GoalsAreCubes, GoesOnAtOnce, HasGoals, HasTurn, InOrderAsked, LeftAtFirst, NextRound, NothingLeft, OneByOne, OneCall, OneControl, OneOutcome, ProgramStays, ReachesAll, SameRound, SideBySide};

/// What each kind of part does in a turn.
pub fn parts_turn()
    ensures reach { ReachesAll }
    ensures await_ { Awaits }
    ensures seq { OneByOne }
    ensures at_once { GoesOnAtOnce }
    ensures both { SideBySide }
    ensures choose { ChoosesByFormula }
    ensures round { NextRound }
    ensures same { SameRound }
    ensures empty { EmptyEnds }
{}

/// There is a turn, and it has one outcome; what ends in it asks for nothing, and so does a program of which nothing is left.
pub fn turns()
    ensures some { HasTurn }
    ensures one { OneOutcome }
    ensures silent { EndsSilently }
    ensures nothing { NothingLeft }
{}

/// What the goal of a turn has of the pairs that are asked for.
pub fn goals()
    ensures first { FirstOfEach }
    ensures cubes { GoalsAreCubes }
    ensures order { InOrderAsked }
    ensures of_turn { GoalOfTurn }
{}

/// Calls one after the other are steps, and keep the program; they have one list of goals, whose pairs are the program's.
pub fn controls()
    ensures call { OneCall }
    ensures on { ControlsOn }
    ensures some { HasGoals }
    ensures one { OneControl }
    ensures stays { ProgramStays }
    ensures at_first { LeftAtFirst }
    ensures of_program { AsksOfProgram }
{}

/// Small programs with the goals that their calls have.
pub fn examples()
    ensures rounds { RoundsTakeTurns }
    ensures reset { ResetBeginsAgain }
    ensures branches { BranchesEnd }
    ensures clash { FirstBranchWins }
    ensures always { TrueTakesFirst }
    ensures never { FalseTakesSecond }
    ensures once { ChoosesOnceInARound }
    ensures empty { EmptyEndsInATurn }
{}
