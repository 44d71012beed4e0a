//! The form `migrate`.

ghost use Rattle.std.specs.Prelude.{◌≡◌, ◌++◌, ◌∷◌, ◌+◌, [], ℕ, codes, IfOk, OnOk};
ghost use Rattle.cca_base.specs.Prelude.{PlantModel};
ghost use Rattle.formula_syntax.specs.Lookups.{NamesFit};
ghost use Rattle.byte_buffer.specs.Outs.{IsFront};
ghost use Rattle.model_syntax.specs.Printing.{printed_model};
ghost use Rattle.model_form.specs.FormStates.{form_first};

use crate::script::{KeptLine, ScriptInSecond};
use cca_base::{Model, Name, Subject};
use indexmap::IndexMap;
use line_forms::{LineForm, Lines};
use line_machine::Out;
use model_form::{Accepted, Begun, ModelForm, Opened, WithModel};
use model_syntax::print_model;
use std::alloc::{AllocError, Global};

/// The form `migrate`.
#[derive(Clone, Copy, Debug, PartialEq, Eq)]
pub struct Migrate;

/// Its machine: behind the model stands a script.
pub type MigrateMachine = WithModel<Migrate, Lines<ScriptInSecond, KeptLine>>;

/// Appends the model's text, and the line `script`.
fn print_model_and_script(alloc: Global, model: &Model, out: &mut Out) -> Result<(), AllocError>
    ensures text { OnOk result (out.new.bytes ≡ out.old.bytes
        ++ (printed_model model.now ++ codes "script" ++ 10 ∷ [])) }
    ensures front { IsFront out.old out.new }
{
    let text = print_model(alloc, model)?;
    out.push(text.as_slice())?;
    out.push(b"script\n")
}

/// A form of lines that begins behind a model of version 2. `I` is what a line may ask for.
pub trait OpensSecond<I>: LineForm<I> {
    /// Where it stands before the first line.
    ghost first: { PlantModel → Self };

    /// Before the first line.
    fn open(alloc: Global, model: Model, names: IndexMap<Name, Subject>) -> Self
        requires { NamesFit names model }
        ensures first { result ≡ first model }
        ensures turn { (n : ℕ) → Self.means.awaits result (n + 1) };
}

impl<L: OpensSecond<I> + Drop, I: Drop> ModelForm<Lines<L, I>> for Migrate {
    ghost use Rattle.std.specs.Prelude.{false};
    ghost use Rattle.cca_base.specs.Prelude.{in_second};
    ghost use Rattle.migrate_form.specs.MigrateMachine.{BeginsIn};
    ghost use Rattle.migrate_form.specs.OneStep.{begins_one_way};

    ghost is_json = { λ f. false };

    ghost begins = { λ f b n u text. BeginsIn (L.first (in_second b.model)) b.model u text };

    ghost begins_one_way = { λ f b n u v a c h k. begins_one_way h k };

    fn is_json(&self) -> bool {
        false
    }

    fn begin(
        &self,
        alloc: Global,
        accepted: Accepted,
        _number: u64,
        out: &mut Out,
    ) -> Begun<Lines<L, I>> {
        let (compiled, names) = accepted.into_parts();
        let model = compiled.into_model().to_second();
        print_model_and_script(alloc, &model, out)?;
        let script = L::open(alloc, model, names);
        let lines = Lines::new(alloc, script)?;
        Ok(Opened::Lines(Box::new(alloc, lines)?))
    }
}

/// The machine before the first line.
pub fn open_migrate(alloc: Global) -> Result<MigrateMachine, AllocError>
    ensures { IfOk result (λ w. w ≡ form_first (record {})) }
{
    WithModel::open(alloc, Migrate)
}
