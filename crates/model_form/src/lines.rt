//! Forms that print nothing at the line `script`, and refusals in words: lines of their own stand behind the model.

ghost use Rattle.std.specs.Prelude.{◌≡◌, ◌+◌, ℕ, IfOk};
ghost use Rattle.cca_base.specs.Prelude.{CompiledModel};

use crate::accepted::Accepted;
use crate::form::{Begun, ModelForm, Opened};
use line_machine::{Machine, Out};
use std::alloc::{AllocError, Global};

/// A machine of the lines behind an accepted model.
pub trait BehindModel: Machine + Drop {
    /// Where it stands before the first of them.
    ghost first: { CompiledModel → Self };

    /// Before the first line. The error is out of memory.
    fn open(alloc: Global, accepted: Accepted) -> Result<Self, AllocError>
        ensures first { IfOk result (λ b. b ≡ first accepted) }
        ensures turn { IfOk result (λ b. (n : ℕ) → Self.awaits b (n + 1)) };
}

/// The form of such a machine.
#[derive(Clone, Copy, Debug, PartialEq, Eq)]
pub struct OfLines;

impl<B: BehindModel> ModelForm<B> for OfLines {
    ghost use Rattle.std.specs.Prelude.{false};
    ghost use Rattle.model_form.specs.ModelSteps.{GoesOnIn};
    ghost use Rattle.model_form.specs.OneStep.{goes_on_one_way};

    ghost is_json = { λ f. false };

    ghost begins = { λ f b n u text. GoesOnIn (B.first b) u text };

    ghost begins_one_way = { λ f b n u v a c h k. goes_on_one_way h k };

    fn is_json(&self) -> bool {
        false
    }

    fn begin(&self, alloc: Global, accepted: Accepted, _number: u64, _out: &mut Out) -> Begun<B> {
        let behind = B::open(alloc, accepted)?;
        Ok(Opened::Lines(Box::new(alloc, behind)?))
    }
}
