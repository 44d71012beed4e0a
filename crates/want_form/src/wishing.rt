//! The lines behind an accepted model, in which target states are asked for.

ghost use Rattle.std.specs.Prelude.{All, IfOk, IfSome, OnErr, OnOk, length, ◌<◌, ◌≡◌, ◌≤◌};
ghost use Rattle.cca_base.specs.Prelude.{Answers, HasMode, IsFormula, IsState, PlantModel};
ghost use Rattle.cca_base.specs.declared.limits.TheConstants.{MAX_WEIGHT};
ghost use Rattle.reversibility.specs.ClassParts.{CoversState};
ghost use Rattle.want_form.specs.Wishes.{put_in};
ghost use Rattle.line_machine.specs.Next.{next_of};
ghost use Rattle.byte_buffer.specs.Outs.{Appended, IsFront};
ghost use Rattle.model_form.specs.FormStates.{form_first};
ghost use Rattle.want_lines.specs.declared.request.Request.TheVariants.{Want};
ghost use Rattle.want_form.specs.WishMachine.{ServesRequest, put_at, weighed, wish_lines};

use crate::weights::{no_weights, set_weight};
use cca_base::codes::MANY;
use cca_base::{Compiled, Formula, List, Model, Name, Pair, Stop, Subject};
use formula_syntax::NamedModel;
use goal_interpreter::{Target, Weights, interpret_by};
use guard_compiler::{RuleClause, rules_of};
use indexmap::IndexMap;
use line_forms::{LineForm, Lines, OpensLines, placed};
use line_machine::{End, Out};
use model_form::{Accepted, MAX_LINE, OfLines, WithModel, refuse_code_to};
use plan_runner::whole_plan;
use policy_tables::Tables;
use reversibility::Classes;
use std::alloc::{AllocError, Global};
use std::rc::Rc;
use successors::Plant;
use trace_text::target_lines;
use want_lines::{Request, read_request};

/// An accepted model, its names, its rules as clauses, what its modes weigh, and where its components stand.
#[derive(Drop)]
pub struct Wishing {
    names: IndexMap<Name, Subject>,
    compiled: Rc<Compiled>,
    rules: List<RuleClause>,
    weights: Weights,
    plant: Plant,
}

impl std::marker::Model for Wishing {
    ghost use Rattle.cca_base.specs.Prelude.{model_codes, IsState};
    ghost use Rattle.formula_syntax.specs.Lookups.{NamesFit};
    ghost use Rattle.goal_interpreter.specs.Weights.{AreWeights};
    ghost use Rattle.guard_compiler.specs.Rules.{AreRulesOf};
    ghost use Rattle.want_form.specs.WishMachine.{WishState};

    ghost Value = { WishState };

    ghost coded = { Prim.hlevel model_codes };

    ghost view = { λ w. record {
      compiled = w.compiled.value;
      settings = record { weights = w.weights.rows; modes = w.plant };
    } };

    ghost invariant = { λ w. NamesFit w.names w.compiled.value.model
        × AreRulesOf w.compiled.value.model w.rules
        × AreWeights w.compiled.value.model w.weights.rows
        × IsState w.compiled.value.model w.plant };
}

/// Puts the components of the pairs into their modes.
fn put_all(plant: &mut Plant, pairs: &[Pair])
    requires { All (λ p. p.item < length plant.old) pairs.now }
    ensures put { plant.new ≡ put_in plant.old pairs.now }
    ensures fits { (m : PlantModel) → IsState m plant.old →
        All (λ p. HasMode m p.item p.value) pairs.now → IsState m plant.new }
{
    for pair in pairs {
        plant.fault(*pair);
    }
}

impl OpensLines<Request> for Wishing {
    ghost use Rattle.want_form.specs.WishMachine.{wish_first};

    ghost first = { wish_first };

    fn open(alloc: Global, accepted: Accepted) -> Result<Wishing, AllocError> {
        let (compiled, names) = accepted.into_parts();
        let rules = rules_of(alloc, compiled.model())?;
        let weights = no_weights(alloc, compiled.model())?;
        let plant = Plant::open(alloc, &compiled)?;
        let compiled = Rc::new(alloc, compiled)?;
        Ok(Wishing {
            names,
            compiled,
            rules,
            weights,
            plant,
        })
    }
}

impl Wishing {
    /// The pair's mode has this weight from now on. The error is out of memory, and then all is as it was.
    fn weigh(&mut self, alloc: Global, pair: Pair, weight: u32) -> Result<(), AllocError>
        requires pair { HasMode self.old.compiled.model pair.item pair.value }
        requires small { weight ≤ MAX_WEIGHT }
        ensures ok { OnOk result (self.new ≡ weighed self.old pair weight) }
        ensures err { OnErr result (self.new ≡ self.old) }
    {
        set_weight(alloc, &mut self.weights, pair, weight)
    }

    /// The components are in these modes from now on.
    fn put(&mut self, pairs: &[Pair])
        requires { All (λ p. HasMode self.old.compiled.model p.item p.value) pairs.now }
        ensures { self.new ≡ put_at self.old pairs.now }
    {
        put_all(&mut self.plant, pairs);
    }

    /// The tables of the classes around where the components stand. The error is out of memory.
    fn tables(&self, alloc: Global) -> Result<Tables, AllocError>
        ensures compiled { IfOk result (λ t. t.classes.compiled ≡ self.now.compiled) }
        ensures covers { IfOk result (λ t. CoversState t.classes self.now.settings.modes) }
    {
        let classes = Classes::of(alloc, &self.compiled, self.plant.state())?;
        Tables::of(alloc, classes)
    }

    /// Answers a wish by the tables, and appends the text of the answer. The error is out of memory.
    fn answer_by(
        &self,
        alloc: Global,
        tables: &Tables,
        number: u64,
        formula: &Formula,
        out: &mut Out,
    ) -> Result<Option<End>, AllocError>
        requires compiled { tables.now.classes.compiled ≡ self.now.compiled }
        requires covers { CoversState tables.now.classes self.now.settings.modes }
        requires formula { IsFormula self.now.compiled.model formula.now }
        ensures answers { IfOk result (λ end. Appended
            (ServesRequest (Want formula.now) self.now number (next_of self.now end))
            out.old out.new) }
        ensures front { IsFront out.old out.new }
    {
        let model = self.compiled.model();
        let from = self.plant.state();
        match interpret_by(alloc, tables, &self.rules, from, formula, &self.weights)? {
            Target::Found {
                state,
                weight,
                goal,
            } => {
                let plan = whole_plan(alloc, tables, from, &goal)?;
                let text = target_lines(alloc, model, weight, &state, &plan)?;
                out.push(text.as_slice())?;
                Ok(None)
            }
            Target::Nowhere => {
                out.push(b"none\n")?;
                Ok(None)
            }
            Target::Many => {
                refuse_code_to(alloc, false, model, number, MANY, out)?;
                Ok(Some(End::Refused))
            }
        }
    }

    /// What a line asks for.
    fn request(&self, alloc: Global, line: &[u8]) -> Result<Option<Request>, Stop>
        ensures said { Answers result (wish_lines.said self.now line.now) }
        ensures fits { IfOk result (λ item. IfSome item (wish_lines.fits self.now)) }
    {
        let model = NamedModel::new(self.compiled.model(), &self.names);
        read_request(alloc, line, &model)
    }

    /// Answers a wish, and appends the text of the answer. The error is out of memory.
    fn answer(
        &self,
        alloc: Global,
        number: u64,
        formula: &Formula,
        out: &mut Out,
    ) -> Result<Option<End>, AllocError>
        requires formula { IsFormula self.now.compiled.model formula.now }
        ensures answers { IfOk result (λ end. Appended
            (ServesRequest (Want formula.now) self.now number (next_of self.now end))
            out.old out.new) }
        ensures front { IsFront out.old out.new }
    {
        let tables = self.tables(alloc)?;
        self.answer_by(alloc, &tables, number, formula, out)
    }
}

impl LineForm<Request> for Wishing {
    ghost use Rattle.want_form.specs.OneStep.{said_one, serves_one};

    ghost means = { wish_lines };

    ghost said_one = { said_one };

    ghost serves_one = { serves_one };

    ghost steady_refusals = { λ x n h. absurd h };

    ghost awaits_on = { λ x n h. tt };

    fn model(&self) -> &Model {
        self.compiled.model()
    }

    fn is_json(&self) -> bool {
        false
    }

    fn limit(&self) -> usize {
        MAX_LINE
    }

    fn skips_empty(&self) -> bool {
        // (the model is an accepted one)
        let _model = self.compiled.model();
        true
    }

    fn place(&self, alloc: Global) -> Result<Request, AllocError> {
        Ok(Request::At(List::new(alloc)))
    }

    fn read(&self, alloc: Global, line: &[u8], item: &mut Request) -> Result<bool, Stop> {
        let read = self.request(alloc, line)?;
        Ok(placed(read, item))
    }

    fn serve(
        &mut self,
        alloc: Global,
        number: u64,
        item: &mut Request,
        out: &mut Out,
    ) -> Result<Option<End>, AllocError> {
        match item {
            Request::Weight { pair, weight } => {
                self.weigh(alloc, *pair, *weight)?;
                Ok(None)
            }
            Request::At(pairs) => {
                self.put(pairs.as_slice());
                Ok(None)
            }
            Request::Want(formula) => self.answer(alloc, number, formula, out),
        }
    }

    fn close(&mut self, _alloc: Global, _count: u64, _out: &mut Out) -> Result<End, AllocError> {
        Ok(End::Ended)
    }
}

/// The form `want`: behind the model stand lines that ask for target states.
pub type WantMachine = WithModel<OfLines, Lines<Wishing, Request>>;

/// The form before the first line.
pub fn open_want(alloc: Global) -> Result<WantMachine, AllocError>
    ensures { IfOk result (λ w. w ≡ form_first (record {})) }
{
    WithModel::open(alloc, OfLines)
}
