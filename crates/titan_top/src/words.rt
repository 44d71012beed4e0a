//! Forms of the program's words.

ghost use Rattle.std.specs.Prelude.{◌≡◌};
ghost use Rattle.titan_top.specs.Words.{form_of, form_of_word, seed_of, texts};

use run_form::Notation;
use trace_text::read_count;

/// What the words ask for.
#[derive(Clone, Copy, Debug, PartialEq, Eq)]
pub enum Form {
    /// Reads a document and prints its trace.
    Run(Notation),
    /// Reads a model and prints it, with what is compiled from it.
    Show,
    /// Runs the document of a seed and prints a summary.
    Trial(u64),
    /// Reads a document and its printed trace, and prints the verdict on it.
    Check,
    /// Reads a document and prints it as one of version 2.
    Migrate,
    /// Reads a model and wishes, and prints the target of each.
    Want,
    /// Reads a model and what was commanded and observed, and prints the best trajectory of the last ticks at each tick.
    Watch,
    /// Reads a model, a control program and events, and prints the trace of the events with those by which the program sets goals.
    Program,
}

/// The number of 64 bits that the word says, if it says one.
fn seed_of(word: &[u8]) -> Option<u64>
    ensures { result ≡ seed_of word.now }
{
    read_count(word)
}

/// The form that one word asks for, if there is one.
fn form_of_word(word: &str) -> Option<Form>
    ensures { result ≡ form_of_word word.now }
{
    if word == "run" {
        Some(Form::Run(Notation::Words))
    } else if word == "show" {
        Some(Form::Show)
    } else if word == "check" {
        Some(Form::Check)
    } else if word == "migrate" {
        Some(Form::Migrate)
    } else if word == "want" {
        Some(Form::Want)
    } else if word == "watch" {
        Some(Form::Watch)
    } else if word == "program" {
        Some(Form::Program)
    } else {
        None
    }
}

/// The form of the words, if they have one.
pub fn form_of(words: &[String]) -> Option<Form>
    ensures { result ≡ form_of (texts words.now) }
{
    match words {
        [a] => form_of_word(a.as_str()),
        [a, b] => {
            if a.as_str() == "run" {
                if b.as_str() == "--json" {
                    Some(Form::Run(Notation::Json))
                } else if b.as_str() == "--proof" {
                    Some(Form::Run(Notation::Proof))
                } else {
                    None
                }
            } else if a.as_str() == "trial" {
                seed_of(b.as_bytes()).map(Form::Trial)
            } else {
                None
            }
        }
        _ => None,
    }
}
