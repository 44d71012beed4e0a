//! What `show` prints.

ghost use Rattle.show_form.specs.Shown.{ModelsAreShown};

/// What is printed for an input is its model's text, or the line of a refusal.
#[tactic(auto, using(crate::proofs::ShownModels::models_are_shown))]
pub fn models_are_shown()
    ensures { ModelsAreShown }
{}
