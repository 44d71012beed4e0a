//! Laws of classes, reach and plans by cells.
#![tactic(auto)]

ghost use Rattle.reach_laws.specs.Plans.{CellsAreChoices, FoundIsPicked, Serialisation, OnePick, OneWhole, PicksAreNeeded, StandingStays, OthersStay, AnswersAreChosen, WholeIsAllowed, EmptyStays, WayBack};
ghost use Rattle.reach_laws.specs.Laws.{EachStepIsReady, ClosedWalk, ClassIsReach, OneClasses, ReturnsInside, RepairsLeadIn, StaysCovered, AllowedInside, OpenAgrees, WalksAgree, HomeIsMended};
ghost use Rattle.reach_laws.specs.FirstVersion.{StandsByBase, RepairsMendAtOnce, StuckStays};

mod cell;

pub use cell::Cell;

/// Implicants of steps.
pub fn each_step_is_ready()
    ensures { EachStepIsReady }
{}

/// The closed walk.
pub fn closed_walk()
    ensures { ClosedWalk }
{}

/// A class is exactly what allowed plans reach.
pub fn class_is_reach()
    ensures { ClassIsReach }
{}

/// There is one family of classes.
pub fn one_classes()
    ensures { OneClasses }
{}

/// A step has a way back exactly inside its class.
pub fn returns_inside()
    ensures { ReturnsInside }
{}

/// A repair leads into its class, or to a broken mode of the open chain.
pub fn repairs_lead_in()
    ensures { RepairsLeadIn }
{}

/// Allowed plans stay covered.
pub fn stays_covered()
    ensures { StaysCovered }
{}

/// A step that is no repair is allowed exactly inside its class.
pub fn allowed_inside()
    ensures { AllowedInside }
{}

/// What is open by reach is open inside the classes.
pub fn open_agrees()
    ensures { OpenAgrees }
{}

/// Walks by reach are walks inside the classes.
pub fn walks_agree()
    ensures { WalksAgree }
{}

/// The cells of tables are the fixed choices.
pub fn cells_are_choices()
    ensures { CellsAreChoices }
{}

/// What is found by cells is what is picked.
pub fn found_is_picked()
    ensures { FoundIsPicked }
{}

/// What is picked is an allowed plan.
pub fn serialisation()
    ensures { Serialisation }
{}

/// One command at most is picked.
pub fn one_pick()
    ensures { OnePick }
{}

/// One whole plan at most leads to a goal.
pub fn one_whole()
    ensures { OneWhole }
{}

/// A picked command is needed.
pub fn picks_are_needed()
    ensures { PicksAreNeeded }
{}

/// What stands stays.
pub fn standing_stays()
    ensures { StandingStays }
{}

/// What is not needed stays.
pub fn others_stay()
    ensures { OthersStay }
{}

/// What the classes and the cells answer is good, and is what is picked.
pub fn answers_are_chosen()
    ensures { AnswersAreChosen }
{}

/// A whole plan is an allowed plan.
pub fn whole_is_allowed()
    ensures { WholeIsAllowed }
{}

/// What cannot be mended stays.
pub fn empty_stays()
    ensures { EmptyStays }
{}

/// A way back ends in a mending.
pub fn way_back()
    ensures { WayBack }
{}

/// The home of a broken base mode is its mended mode.
pub fn home_is_mended()
    ensures { HomeIsMended }
{}

/// In the first version a covered component stands in its class or in its base mode, a repair leads into its class, and what can't be
/// mended stands where it stood.
pub fn first_version()
    ensures stands { StandsByBase }
    ensures mends { RepairsMendAtOnce }
    ensures stuck { StuckStays }
{}
