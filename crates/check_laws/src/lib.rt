//! Laws of plans with one way back: tests of a plan and of a way back from its end show that each of its steps is allowed.
#![tactic(auto)]

ghost use Rattle.check_laws.specs.Laws.{RunsAreMadeAgain, OneWayBack, PlansReturn, CheckedPlanBegins, TestsAreExact, OneEnd};

/// A run is made again from a mending of its start.
pub fn runs_are_made_again()
    ensures { RunsAreMadeAgain }
{}

/// One way back serves each step of a plan.
pub fn one_way_back()
    ensures { OneWayBack }
{}

/// A run is an allowed plan exactly where its end has a way back.
pub fn plans_return()
    ensures { PlansReturn }
{}

/// A plan that was checked begins an allowed plan to the goal.
pub fn checked_plan_begins()
    ensures { CheckedPlanBegins }
{}

/// The tests of a plan and its way back are exact.
pub fn tests_are_exact()
    ensures { TestsAreExact }
{}

/// A list of commands leads to one state at most.
pub fn one_end()
    ensures { OneEnd }
{}
