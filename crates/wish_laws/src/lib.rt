//! Laws of settled states and of the lightest of them.
#![tactic(auto)]

ghost use Rattle.wish_laws.specs.Laws.{SettledByClasses, PlansEndThere, HoldsByImplicant, LightestOfCube, LightestOfAll, NoneIsSettled, OneTarget, WeightsAddUp};

/// A settled state is one in which each component stands in a mode of its class, or stays where its class is empty.
pub fn settled()
    ensures classes { SettledByClasses }
    ensures plans { PlansEndThere }
{}

/// A state holds a wish exactly where one of the wish's prime implicants stands in it.
pub fn wishes()
    ensures { HoldsByImplicant }
{}

/// The lightest state is found cube by cube, and in a cube component by component.
pub fn lightest()
    ensures cube { LightestOfCube }
    ensures all { LightestOfAll }
    ensures none { NoneIsSettled }
    ensures one { OneTarget }
    ensures weights { WeightsAddUp }
{}
