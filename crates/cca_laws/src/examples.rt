//! Examples: small models, and what is true and false of them.

ghost use Rattle.cca_laws.specs.Examples.{EmptyTicks, LampIsLit};
ghost use Rattle.cca_laws.specs.FormulaExamples.{DepthIsSeven, ChoicesOfTwo, OnePartDoesNotFit, NoneAmongDoesNotFit};
ghost use Rattle.cca_laws.specs.ValveExamples.{ValveIsWellFormed, DriverComesOn, StuckMends, OpeningNeedsDriver, StuckIsNotLeanedOn, ClosedIsLeanedOn, OpeningForGood, OpeningIsAllowed};
ghost use Rattle.cca_laws.specs.CostExamples.{OpeningIsFree, StayingShutCosts, StandingIsFree, LesserFailureCounts, TwoForOne};
ghost use Rattle.cca_laws.specs.EdgeExamples.{WhichAreNames, ForeignFailure, CostsAtTheEdge, OutOfFirstUse, WhichAreChoices, MostAreChoices, OneMoreIsTooMany};
ghost use Rattle.cca_laws.specs.OrderExamples.{OneImplicant, OneNeed, CauseComesLast};
ghost use Rattle.cca_laws.specs.ObservedExamples.{PendingRises, NothingMirrored, GoalIsTurned, GoalIsKeptTurned, TickHasGoalTurned};
ghost use Rattle.cca_laws.specs.ServeExamples.{OneOfOne, TwoOfOne, TooLate, NoneAfter, NotLost, LampIsPromised, LostBeginsNone};
ghost use Rattle.cca_laws.specs.EventLaws.{FaultsMovePlant, ClearEndsGoal, CommandsMovePlant, UnexplainedHolds, HoldingGoesOn, TenThousandAreShown, OneMoreIsLong, LongBothWays};
ghost use Rattle.cca_laws.specs.MoreExamples.{WrongAfterRight, BrokenIsNoGoal, MirroredIsNotObserved, OnceBeforeTick};
ghost use Rattle.cca_laws.specs.MirrorExamples.{MirrorsJoin, AgainAfterTick, MirrorsOutlastTicks, PlantIsMirrored};
ghost use Rattle.cca_laws.specs.FirstExamples.{LesserWorldIsFirst, GreaterWorldIsNot, PipeIsBurst, PumpIsNotDead};
ghost use Rattle.cca_laws.specs.CauseExamples.{DriverServesValve, ValveServesNoDriver};
ghost use Rattle.cca_laws.specs.MendExamples.{MendingIsCompiled, GoingIsAllowed, BackGoalIsMended, RouteComesBack};
ghost use Rattle.cca_laws.specs.ChainExamples.{UnitIsWellFormed, OnlyInSecond, NextIsLatched, MendedIsOk, OkHasNoMended, ChainOfHung, MendingsOfHung, MendingsOfLatched, MendingsOfOk, LatchedIsNotSound, TwoCommandsMend, NoChainGoesRound, NoRepairStays, OneNextMode, OnlyRepairsEnter, OnlyRepairsLeave};
ghost use Rattle.cca_laws.specs.ExcuseExamples.{GoalBehindResetIsNoExcuse, NewGoalIsNoExcuse, GoalBetweenIsNoExcuse, ClearIsNoExcuse, RightIsFree, LastEstimateIsWrong, PlantIsSeen};
ghost use Rattle.cca_laws.specs.WithinExamples.{MirroringEndsNoStretch, ObservingEndsNoStretch, OneBoundIsStated};
ghost use Rattle.cca_laws.specs.ChosenExamples.{FirstIsNamed, FirstMoveIsChosen, FirstCubeIsChosen};
ghost use Rattle.cca_laws.specs.RightExamples.{WrongIsNotRight, FaultsExcuse, ResetsEndExcuses, ResetKeepsTicks};

/// The empty model.
pub fn empty()
    ensures { EmptyTicks }
{}

/// The lamp.
pub fn lamp()
    ensures { LampIsLit }
{}

/// Small formulas.
pub fn formulas()
    ensures depth { DepthIsSeven }
    ensures choices { ChoicesOfTwo }
    ensures one_part { OnePartDoesNotFit }
    ensures none_among { NoneAmongDoesNotFit }
{}

/// The valve.
pub fn valve()
    ensures well_formed { ValveIsWellFormed }
    ensures driver { DriverComesOn }
    ensures stuck { StuckMends }
    ensures opening { OpeningNeedsDriver }
    ensures stuck_engine { StuckIsNotLeanedOn }
    ensures closed_engine { ClosedIsLeanedOn }
    ensures for_good { OpeningForGood }
    ensures allowed { OpeningIsAllowed }
{}

/// Costs of successors, and an estimate.
pub fn successors()
    ensures opening { OpeningIsFree }
    ensures shut { StayingShutCosts }
    ensures standing { StandingIsFree }
    ensures lesser { LesserFailureCounts }
    ensures two_for_one { TwoForOne }
{}

/// The edges of what is well formed.
pub fn edges()
    ensures names { WhichAreNames }
    ensures foreign { ForeignFailure }
    ensures costs { CostsAtTheEdge }
    ensures first_use { OutOfFirstUse }
    ensures choices { WhichAreChoices }
    ensures most { MostAreChoices }
    ensures one_more { OneMoreIsTooMany }
{}

/// Right and wrong estimates.
pub fn right()
    ensures wrong { WrongIsNotRight }
    ensures faults { FaultsExcuse }
    ensures resets { ResetsEndExcuses }
    ensures reset { ResetKeepsTicks }
{}

/// What is no excuse for a wrong estimate, and what it is to be right.
pub fn excuses()
    ensures new_goal { NewGoalIsNoExcuse }
    ensures behind_reset { GoalBehindResetIsNoExcuse }
    ensures goal { GoalBetweenIsNoExcuse }
    ensures clear { ClearIsNoExcuse }
    ensures free { RightIsFree }
    ensures last { LastEstimateIsWrong }
    ensures seen { PlantIsSeen }
{}

/// Implicants, needs and their order.
pub fn implicants()
    ensures one { OneImplicant }
    ensures need { OneNeed }
    ensures order { CauseComesLast }
{}

/// What is observed, and how a goal is kept.
pub fn observed()
    ensures pending { PendingRises }
    ensures mirrored { NothingMirrored }
    ensures goal { GoalIsTurned }
    ensures kept { GoalIsKeptTurned }
    ensures tick { TickHasGoalTurned }
{}

/// Goals that are served in time, and goals that are not.
pub fn serves()
    ensures one { OneOfOne }
    ensures two { TwoOfOne }
    ensures late { TooLate }
    ensures none { NoneAfter }
    ensures lost { NotLost }
    ensures lamp { LampIsPromised }
    ensures begins { LostBeginsNone }
{}

/// How far stretches go, and how many commands are stated.
pub fn within()
    ensures observing { ObservingEndsNoStretch }
    ensures mirroring { MirroringEndsNoStretch }
    ensures one_bound { OneBoundIsStated }
{}

/// What events and ticks change.
pub fn changes()
    ensures faults { FaultsMovePlant }
    ensures clear { ClearEndsGoal }
    ensures commands { CommandsMovePlant }
    ensures unexplained { UnexplainedHolds }
    ensures holding { HoldingGoesOn }
    ensures shown { TenThousandAreShown }
    ensures long { OneMoreIsLong }
    ensures both { LongBothWays }
{}

/// What stays right from tick to tick, and which events may come.
pub fn more()
    ensures after { WrongAfterRight }
    ensures broken { BrokenIsNoGoal }
    ensures mirrored { MirroredIsNotObserved }
    ensures once { OnceBeforeTick }
{}

/// What is mirrored.
pub fn mirrors()
    ensures join { MirrorsJoin }
    ensures again { AgainAfterTick }
    ensures outlast { MirrorsOutlastTicks }
    ensures plant { PlantIsMirrored }
{}

/// What comes first of two that are as good.
pub fn firsts()
    ensures world { LesserWorldIsFirst }
    ensures greater { GreaterWorldIsNot }
    ensures estimate { PipeIsBurst }
    ensures later { PumpIsNotDead }
{}

/// What is named and what is chosen of two.
pub fn chosen()
    ensures named { FirstIsNamed }
    ensures first_move { FirstMoveIsChosen }
    ensures first_cube { FirstCubeIsChosen }
{}

/// Commands that serve a goal.
pub fn causes()
    ensures driver { DriverServesValve }
    ensures valve { ValveServesNoDriver }
{}

/// A way back that mends.
pub fn mends()
    ensures compiled { MendingIsCompiled }
    ensures going { GoingIsAllowed }
    ensures goal { BackGoalIsMended }
    ensures route { RouteComesBack }
{}

/// A unit that two repairs mend: its modes, and where it may stand once it is mended.
pub fn chains()
    ensures well_formed { UnitIsWellFormed }
    ensures second { OnlyInSecond }
    ensures next { NextIsLatched }
    ensures mended { MendedIsOk }
    ensures none { OkHasNoMended }
    ensures chain { ChainOfHung }
    ensures hung { MendingsOfHung }
    ensures latched { MendingsOfLatched }
    ensures ok { MendingsOfOk }
    ensures sound { LatchedIsNotSound }
    ensures plan { TwoCommandsMend }
{}

/// Moves and repairs that no version allows.
pub fn no_chains()
    ensures round { NoChainGoesRound }
    ensures stays { NoRepairStays }
    ensures next { OneNextMode }
    ensures enter { OnlyRepairsEnter }
    ensures leave { OnlyRepairsLeave }
{}
