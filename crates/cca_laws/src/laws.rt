//! Laws: what holds of every model.

ghost use Rattle.cca_laws.specs.Conditions.{FollowsIsDecided, SufficientCubesHavePrimes};
ghost use Rattle.cca_laws.specs.FirstVersion.{RulesAsBefore, FirstIsSecond, MendingsAsBefore};
ghost use Rattle.cca_laws.specs.Laws.{RunsJoin, AllowedPlansRun, MendsItself, OneMended, MendedIsNext, RepairsAreAllowed, ImplicantsGiveSteps, OneEstimate, NeverBoth, OneObserved, OneFixedTrace, OneFirstMissing, NoneUnderNoOrder, SendsServe, StandingIsReached, StandingGivesNoCommands, FreeIsNominal, FirstIsRight, OneCompiled, InOrderIsPairwise, OrdersHaveNoneTwice, NominalIsFree, OneCost, CommandsAreUsed, NeverIdle, AsManyAsTicks};

/// Runs and plans.
pub fn plans()
    ensures join { RunsJoin }
    ensures allowed { AllowedPlansRun }
    ensures itself { MendsItself }
    ensures one_mended { OneMended }
    ensures mended { MendedIsNext }
    ensures repairs { RepairsAreAllowed }
    ensures implicants { ImplicantsGiveSteps }
{}

/// Estimates and observations.
pub fn estimates()
    ensures one { OneEstimate }
    ensures never_both { NeverBoth }
    ensures first { FirstIsRight }
{}

/// Costs.
pub fn costs()
    ensures free { FreeIsNominal }
    ensures nominal { NominalIsFree }
    ensures one { OneCost }
{}

/// Goals.
pub fn goals()
    ensures one { OneFirstMissing }
    ensures none { NoneUnderNoOrder }
    ensures serve { SendsServe }
    ensures reached { StandingIsReached }
    ensures commands { StandingGivesNoCommands }
    ensures idle { NeverIdle }
{}

/// Traces.
pub fn traces()
    ensures observed { OneObserved }
    ensures fixed { OneFixedTrace }
    ensures many { AsManyAsTicks }
{}

/// What is compiled.
pub fn compiled()
    ensures one { OneCompiled }
    ensures used { CommandsAreUsed }
{}

/// Orders.
pub fn orders()
    ensures pairwise { InOrderIsPairwise }
    ensures none_twice { OrdersHaveNoneTwice }
{}

/// Conditions of moves.
pub fn conditions()
    ensures decided { FollowsIsDecided }
    ensures primes { SufficientCubesHavePrimes }
{}

/// What repairs are in the first version.
pub fn first_version()
    ensures rules { RulesAsBefore }
    ensures second { FirstIsSecond }
    ensures mendings { MendingsAsBefore }
{}
