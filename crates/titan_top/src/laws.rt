//! An input has one outcome, which its machine prints and which its first bytes begin; what is shown is read as that model, and what a
//! run with proofs prints is checked, and what a migration prints runs as its input does. Each form but a trial has its words.

ghost use Rattle.titan_top.specs.Laws.{FormsDoWhatTheyMean, FormsKeepTheirPromises, OutcomesAreOne, TextsAreOutcomes, SureTextBegins, OutcomesFit, OwnTracesAreChecked, RunsHaveOwnTraces, MigrationsRunAlike, PrintedTextsReadBack};
ghost use Rattle.titan_top.specs.Promised.{PromisesByName};
ghost use Rattle.titan_top.specs.WordExamples.{WordsAreForms};

/// For words and an input there is one outcome at most: one text, and one status without faults.
#[tactic(auto, using(crate::proofs::OutcomesAreOne::outcomes_are_one))]
pub fn outcomes_are_one()
    ensures { OutcomesAreOne }
{}

/// What a form's machine prints for an input is what the input's document says, and the other way round.
#[tactic(auto, using(crate::proofs::MachineLaws::texts_are_outcomes))]
pub fn texts_are_outcomes()
    ensures { TextsAreOutcomes }
{}

/// What bytes alone decide begins the text of every input that begins with them.
#[tactic(auto, using(crate::proofs::MachineLaws::sure_text_begins))]
pub fn sure_text_begins()
    ensures { SureTextBegins }
{}

/// A sink that has room for the whole text has room for all that the program may print.
#[tactic(auto, using(crate::proofs::MachineLaws::outcomes_fit))]
pub fn outcomes_fit()
    ensures { OutcomesFit }
{}

/// What is printed of a model, cut at its lines' ends, is read as that model.
#[tactic(auto, using(crate::proofs::PrintedTexts::printed_texts_read_back))]
pub fn printed_texts_read_back()
    ensures { PrintedTextsReadBack }
{}

/// What a run with proofs prints of a document is checked.
#[tactic(auto, using(crate::proofs::OwnTraces::own_traces_are_checked))]
pub fn own_traces_are_checked()
    ensures { OwnTracesAreChecked }
{}

/// A run with proofs that ends has such an input.
#[tactic(auto, using(crate::proofs::OwnInputs::runs_have_own_traces))]
pub fn runs_have_own_traces()
    ensures { RunsHaveOwnTraces }
{}

/// What a migration prints is run as its input is, and is migrated to itself.
#[tactic(auto, using(crate::proofs::Migrations::migrations_run_alike))]
pub fn migrations_run_alike()
    ensures { MigrationsRunAlike }
{}

/// What each form promises of the outcomes of its words, by name.
#[tactic(auto, using(crate::proofs::Promised::promises_by_name))]
pub fn promises_by_name()
    ensures { PromisesByName }
{}

/// Each form's machine does what the form means, and the other way round.
pub fn forms_do_what_they_mean()
    ensures { FormsDoWhatTheyMean }
{}

/// Each form keeps what it promises beside its text, prints by lines or not at all, and reads to its end where it says so.
#[tactic(auto, using(crate::proofs::Agreements::keeps))]
pub fn forms_keep_their_promises()
    ensures { FormsKeepTheirPromises }
{}

/// Each form but a trial has its words.
#[tactic(auto, using(crate::proofs::WordExamples::words_are_forms))]
pub fn words_are_forms()
    ensures { WordsAreForms }
{}
