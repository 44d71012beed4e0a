//! A control program, read line by line.

ghost use Rattle.std.specs.Prelude.{◌≡◌, ◌∷◌, IfOk, IsSome, None, OnErr, Some, map};
ghost use Rattle.cca_base.specs.Prelude.{Answers, PlantModel};
ghost use Rattle.text_base.specs.Lexemes.{lexeme_of};
ghost use Rattle.control_syntax.specs.Codes.{IsSaid, IsSaidByTokens, IsSaidHere, Leads};
ghost use Rattle.control_syntax.specs.Reading.{HasEnded, after, end_of, nothing_read};
ghost use Rattle.control_syntax.specs.Kept.{MayRunSoFar};
ghost use Rattle.control_syntax.specs.Tests.{HasRoom, stop_here};

use crate::block::Block;
use crate::codes::code_of;
use crate::line::Line;
use crate::part::Part;
use crate::place::move_place;
use crate::program_end::ProgramEnd;
use crate::words::words_line;
use cca_base::codes::MALFORMED;
use cca_base::{List, Model, Stop};
use formula_syntax::NamedModel;
use std::alloc::{AllocError, Global};
use std::mem;
use text_base::{Token, TokenFault, tokens};

/// A refusal of a line's words, as one of the line: before the line `program` any other is malformed.
fn stop_here(started: bool, stop: Stop) -> Stop
    ensures { result ≡ stop_here started stop }
{
    match stop {
        Stop::Memory => Stop::Memory,
        Stop::Refused(refusal) => {
            if started {
                Stop::Refused(refusal)
            } else {
                Stop::refused(MALFORMED)
            }
        }
    }
}

/// How far a control program was read. A contract sees whether the line `program` was read, how many lines with tokens came behind it, the
/// program's own parts so far, the open blocks with theirs, and the whole program once it has ended.
#[derive(Drop)]
pub struct ProgramReader {
    alloc: Global,
    started: bool,
    count: u32,
    parts: List<Part>,
    blocks: Vec<Block>,
    whole: Option<Part>,
}

impl std::marker::Model for ProgramReader {
    ghost use Rattle.std.specs.Coded.{codes};
    ghost use Rattle.control_syntax.specs.contracts.block.Block as block_contract;
    ghost use Rattle.control_syntax.specs.contracts.part.Part as part_contract;
    ghost use Rattle.control_syntax.specs.Reading.{Reading, placed};

    ghost Value = { Reading };

    ghost coded = { Prim.hlevel (codes, part_contract.the_row.coded, block_contract.the_row.coded) };

    ghost view = { λ r. record {
      started = r.started;
      count = r.count;
      place = placed r.parts r.blocks.items;
      whole = r.whole;
    } };
}

impl ProgramReader {
    /// A reader that has read no line.
    pub fn open(alloc: Global) -> Result<ProgramReader, AllocError>
        ensures start { IfOk result (λ r. r ≡ nothing_read) }
        ensures kept { IfOk result (λ r. (m : PlantModel) → MayRunSoFar m r) }
    {
        Ok(ProgramReader {
            alloc,
            started: false,
            count: 0,
            parts: List::new(alloc),
            blocks: Vec::new(alloc),
            whole: None,
        })
    }

    /// What the words of a line say here.
    fn words_said(&self, model: &NamedModel, first: &Token, rest: &[Token]) -> Result<Line, Stop>
        ensures { Answers result
            (IsSaidHere model.now self.now (lexeme_of first.now ∷ map lexeme_of rest.now)) }
    {
        match words_line(self.alloc, model, first, rest) {
            Ok(line) => {
                let blocks = self.blocks.as_slice();
                match code_of(model.model(), self.started, self.count, blocks, &line) {
                    Some(code) => Err(Stop::refused(code)),
                    None => Ok(line),
                }
            }
            Err(stop) => Err(stop_here(self.started, stop)),
        }
    }

    /// What the tokens of a line say here.
    fn tokens_said(&self, model: &NamedModel, tokens: &[Token]) -> Result<Option<Line>, Stop>
        ensures { Answers result (IsSaidByTokens model.now self.now (map lexeme_of tokens.now)) }
    {
        match tokens {
            [] => Ok(None),
            [first, rest @ ..] => match self.words_said(model, first, rest) {
                Ok(line) => Ok(Some(line)),
                Err(stop) => Err(stop),
            },
        }
    }

    /// What a line says here.
    fn said(&self, model: &NamedModel, text: &[u8]) -> Result<Option<Line>, Stop>
        ensures { Answers result (IsSaid model.now self.now text.now) }
    {
        match tokens(self.alloc, text) {
            Ok(tokens) => self.tokens_said(model, tokens.as_slice()),
            Err(TokenFault::Bad(_)) => Err(Stop::refused(MALFORMED)),
            Err(TokenFault::Memory) => Err(Stop::Memory),
        }
    }

    /// Does what a line says on which no code applies. The error is out of memory.
    fn take(&mut self, line: Line) -> Result<ProgramEnd, AllocError>
        requires { HasRoom self.old line }
        ensures ok { IfOk result (λ end. (end ≡ end_of (Some line)) × (self.new ≡ after self.old line)) }
        ensures err { OnErr result (self.new ≡ self.old) }
    {
        match line {
            Line::Program => {
                self.started = true;
                Ok(ProgramEnd::Going)
            }
            Line::End => {
                let parts = mem::replace(&mut self.parts, List::new(self.alloc));
                self.blocks.clear();
                self.whole = Some(Part::Seq(parts));
                Ok(ProgramEnd::Whole)
            }
            line => {
                move_place(self.alloc, &mut self.parts, &mut self.blocks, line)?;
                self.count += 1;
                Ok(ProgramEnd::Going)
            }
        }
    }

    /// Reads the next line behind the line `script`, without its LF, and answers whether the program has ended with it. The refusal has the
    /// least code that applies, and no detail. Names are found by a walk over the model.
    pub fn line(&mut self, model: &Model, text: &[u8]) -> Result<ProgramEnd, Stop>
        requires going { self.old.whole ≡ None }
        ensures answer { Leads model.now self.old text.now result self.new }
        ensures whole { IfOk result (λ end. HasEnded end self.new.whole) }
        ensures kept { MayRunSoFar model.now self.old → MayRunSoFar model.now self.new }
        ensures err { OnErr result (self.new ≡ self.old) }
    {
        self.line_named(&NamedModel::of_model(model), text)
    }

    /// The same for a model with its names.
    pub fn line_named(&mut self, model: &NamedModel, text: &[u8]) -> Result<ProgramEnd, Stop>
        requires going { self.old.whole ≡ None }
        ensures answer { Leads model.now self.old text.now result self.new }
        ensures whole { IfOk result (λ end. HasEnded end self.new.whole) }
        ensures kept { MayRunSoFar model.now self.old → MayRunSoFar model.now self.new }
        ensures err { OnErr result (self.new ≡ self.old) }
    {
        match self.said(model, text)? {
            Some(line) => match self.take(line) {
                Ok(end) => Ok(end),
                Err(_) => Err(Stop::Memory),
            },
            None => Ok(ProgramEnd::Going),
        }
    }

    /// The whole program.
    pub fn finish(self) -> Part
        requires { IsSome self.whole }
        ensures { self.whole ≡ Some result }
    {
        let ProgramReader { alloc, whole, .. } = self;
        match whole {
            Some(part) => part,
            None => Part::Seq(List::new(alloc)),
        }
    }
}
