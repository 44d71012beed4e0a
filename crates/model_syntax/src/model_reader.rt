//! The reader of a model, line by line.

ghost use Rattle.std.specs.Prelude.{◌≡◌, false, map, Ok, IfOk};
ghost use Rattle.cca_base.specs.Prelude.{empty_model, IsComplete};
ghost use Rattle.std.specs.List.{AllByRecursion};
ghost use Rattle.text_base.specs.Tokens.{IsOfItsKind, token_view};
ghost use Rattle.formula_syntax.specs.Lookups.{NamesFit};
ghost use Rattle.model_syntax.specs.Lines.{AnswersLine, LineLeads, LeadsByTokens};

use crate::indexed_model::IndexedModel;
use crate::line_end::LineEnd;
use crate::token_lines::tokens_line;
use cca_base::codes::MALFORMED;
use cca_base::{Model, Name, Stop, Subject};
use indexmap::IndexMap;
use std::alloc::{AllocError, Global};
use text_base::{Token, TokenFault, tokens};

/// A model, as far as its lines were read.
#[derive(Drop)]
pub struct ModelReader {
    alloc: Global,
    model: IndexedModel,
    begun: bool,
}

impl std::marker::Model for ModelReader {
    ghost use Rattle.model_syntax.specs.Lines.{ModelSoFar};
    ghost use Rattle.cca_base.specs.Prelude.{model_codes};

    ghost Value = { ModelSoFar };

    ghost coded = { Prim.hlevel model_codes };

    ghost view = { λ r. record { model = r.model; begun = r.begun } };
}

impl ModelReader {
    /// The reader before the first line.
    pub fn open(alloc: Global) -> Result<ModelReader, AllocError>
        ensures { IfOk result (λ r. r ≡ record { model = empty_model 1; begun = false }) }
    {
        Ok(ModelReader {
            alloc,
            model: IndexedModel::empty(alloc),
            begun: false,
        })
    }

    /// The model of the lines read so far.
    pub fn model(&self) -> &Model
        ensures { result.now ≡ self.now.model }
    {
        self.model.model()
    }

    /// Reads one line, without its end. After a refusal, or out of memory, the reader is as before.
    pub fn line(&mut self, text: &[u8]) -> Result<LineEnd, Stop>
        ensures { AnswersLine result self.old self.new (LineLeads self.old text.now) }
    {
        match tokens(self.alloc, text) {
            Ok(tokens) => self.tokens_line(tokens.as_slice()),
            Err(TokenFault::Bad(_)) => Err(Stop::refused(MALFORMED)),
            Err(TokenFault::Memory) => Err(Stop::Memory),
        }
    }

    fn tokens_line(&mut self, tokens: &[Token]) -> Result<LineEnd, Stop>
        requires { AllByRecursion IsOfItsKind (map token_view tokens.now) }
        ensures { AnswersLine result self.old self.new
            (LeadsByTokens self.old (Ok (map token_view tokens.now))) }
    {
        tokens_line(self.alloc, &mut self.model, &mut self.begun, tokens)
    }

    /// The model of all lines.
    pub fn finish(self) -> Model
        ensures model { result ≡ self.model }
        ensures complete { IsComplete result }
    {
        let (model, _) = self.finish_named();
        model
    }

    /// The model of all lines, and a map of the names that it has.
    pub fn finish_named(self) -> (Model, IndexMap<Name, Subject>)
        ensures model { result.0 ≡ self.model }
        ensures complete { IsComplete result.0 }
        ensures fit { NamesFit result.1 result.0 }
    {
        self.model.finish()
    }
}
