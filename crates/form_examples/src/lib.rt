//! Examples of what forms of words read, print and choose, as laws: each turns false where a word is spelt otherwise, a limit is another, or an order is
//! turned. There is no code.
#![tactic(auto)]

ghost use Rattle.form_examples.specs.CheckExamples.{ReasonsAreNamed};
ghost use Rattle.form_examples.specs.EventExamples.{EventsAreSpelt};
ghost use Rattle.form_examples.specs.RunExamples.{ReportsAreNoted};
ghost use Rattle.form_examples.specs.WatchExamples.{WatchLinesAreSpelt};
ghost use Rattle.form_examples.specs.WishExamples.{SettingsAdd, WishLinesAreSpelt, FirstAmongEquals};

/// Each line of a script, as the guide spells it.
#[tactic(auto, using(crate::proofs::EventExamples::events_are_spelt))]
pub fn events_are_spelt()
    ensures { EventsAreSpelt }
{}

/// Each line that follows a plant which somebody else commands, as the guide spells it.
#[tactic(auto, using(crate::proofs::WatchExamples::watch_lines_are_spelt))]
pub fn watch_lines_are_spelt()
    ensures { WatchLinesAreSpelt }
{}

/// Each line of wishes, as the guide spells it, with its limit and its codes.
#[tactic(auto, using(crate::proofs::WishExamples::wish_lines_are_spelt))]
pub fn wish_lines_are_spelt()
    ensures { WishLinesAreSpelt }
{}

/// What lines of weights and places leave for the wishes behind them.
#[tactic(auto, using(crate::proofs::WishExamples::settings_add))]
pub fn settings_add()
    ensures { SettingsAdd }
{}

/// Of two states of equal weight the one that comes first is the target.
#[tactic(auto, using(crate::proofs::WishExamples::first_among_equals))]
pub fn first_among_equals()
    ensures { FirstAmongEquals }
{}

/// How a report and a refusal are printed in each notation.
#[tactic(auto, using(crate::proofs::RunExamples::reports_are_noted))]
pub fn reports_are_noted()
    ensures { ReportsAreNoted }
{}

/// The line of a No for each reason.
#[tactic(auto, using(crate::proofs::CheckExamples::reasons_are_named))]
pub fn reasons_are_named()
    ensures { ReasonsAreNamed }
{}
