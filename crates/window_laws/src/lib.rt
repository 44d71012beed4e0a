//! Laws of trajectories over a window of records.
#![tactic(auto)]

ghost use Rattle.window_laws.specs.Examples.{Examples};
ghost use Rattle.window_laws.specs.LatestTicks.{AnswersAreOfLatest};
ghost use Rattle.window_laws.specs.Laws.{OneBest, TailsAreBest, OneRecord, AddsAtEnd, OldestDecides, ClashesCut};
ghost use Rattle.window_laws.specs.TrackerLaws.{TicksKeep, OneTick, SlidesKeepBest, WindowFills, ShowsLatest, RevisedByTick, NothingToRevise, StartsAwake, HoldsOn, HoldsBehind, OneTracking, ResetsForget, KeepsLatest, TracksOn, StartKeeps, AnswersAreBest, NumbersGoOn};
ghost use Rattle.window_laws.specs.Columns.{PathsAreTrajectory, TrajectoriesArePaths, GatesAreHeld, GatesAreShut};

/// What best trajectories are.
pub fn best_trajectories()
    ensures one { OneBest }
    ensures tails { TailsAreBest }
    ensures record { OneRecord }
    ensures adds { AddsAtEnd }
    ensures oldest { OldestDecides }
{}

/// What a tick keeps, finds and revises.
pub fn ticks()
    ensures keep { TicksKeep }
    ensures one { OneTick }
    ensures slides { SlidesKeepBest }
    ensures fills { WindowFills }
    ensures latest { ShowsLatest }
    ensures revised { RevisedByTick }
    ensures nothing { NothingToRevise }
    ensures awake { StartsAwake }
    ensures on { HoldsOn }
    ensures behind { HoldsBehind }
{}

/// What calls one after the other answer.
pub fn tracking()
    ensures one { OneTracking }
    ensures on { TracksOn }
    ensures start { StartKeeps }
    ensures best { AnswersAreBest }
    ensures of_latest { AnswersAreOfLatest }
    ensures numbers { NumbersGoOn }
    ensures resets { ResetsForget }
    ensures latest { KeepsLatest }
{}

/// What the words of a tracker say of small ones.
#[tactic(auto, using(crate::proofs::SmallTrackers::examples))]
pub fn examples()
    ensures { Examples }
{}

/// How trajectories come of columns, and columns of trajectories.
pub fn searches()
    ensures clashes { ClashesCut }
    ensures paths { PathsAreTrajectory }
    ensures each { TrajectoriesArePaths }
{}

/// When a command moves something.
pub fn gates()
    ensures held { GatesAreHeld }
    ensures shut { GatesAreShut }
{}
