//! The checker of a printed trace.

ghost use Rattle.std.specs.Prelude.{◌≡◌, IfOk, OnOk, OnErr};
ghost use Rattle.cca_base.specs.Prelude.{start, Changes, HasWorlds, MayCome};
ghost use Rattle.consistency.specs.Worlds.{AreWorldsOf};
ghost use Rattle.trace_laws.specs.Events.{AsGiven, IsTick};
ghost use Rattle.plan_checker.specs.Checked.{TakesAtYes, OnYes, ShowsSuccessor, ShowsReply, ShowsSafety};
ghost use Rattle.plan_checker.specs.Reasons.{printed, IsVerdict};
ghost use Rattle.plan_checker.specs.Standing.{FitsModel};

use crate::judged::judge;
use crate::taken::take;
use crate::tick::Tick;
use crate::verdict::Verdict;
use cca_base::{Event, Model, Route, Seen, TickReport, VarSet, World};
use consistency::{Worlds, rules_of};
use std::alloc::{AllocError, Global};
use trace_laws::Standing;

/// A checker of the ticks that are printed for a model's events. A contract sees it as where an executive stands, with the last
/// printed estimate and command.
#[derive(Drop)]
pub struct Checker {
    alloc: Global,
    standing: Standing,
}

impl std::marker::Model for Checker {
    ghost use Rattle.cca_base.specs.Prelude.{ExecutiveState};
    ghost use Rattle.plan_checker.specs.Standing.{KeepsPending};
    ghost use Rattle.std.specs.Coded.{codes};

    ghost Value = { ExecutiveState };

    ghost coded = { Prim.hlevel codes };

    ghost view = { λ c. c.standing };

    ghost invariant = { λ c. KeepsPending c.standing };
}

impl Checker {
    /// A checker at the start. The error is out of memory.
    pub fn open(alloc: Global, model: &Model) -> Result<Checker, AllocError>
        ensures start { IfOk result (λ c. c ≡ start model.now 0) }
        ensures fits { IfOk result (FitsModel model.now) }
    {
        let _moves = model.moves();
        let standing = Standing::start(alloc, model, 0)?;
        Ok(Checker { alloc, standing })
    }

    /// Makes an event that is no tick. A goal's pairs are kept as they are given. The error is out of memory.
    pub fn event(&mut self, model: &Model, event: &Event) -> Result<(), AllocError>
        requires fits { FitsModel model.now self.old }
        requires no_tick { IsTick event.now → ⊥ }
        requires may_come { MayCome model.now self.old.pending self.old.mirrored event.now }
        ensures changes { OnOk result (Changes model.now AsGiven self.old event.now self.new) }
        ensures fits { FitsModel model.now self.new }
        ensures err { OnErr result (self.new ≡ self.old) }
    {
        let _moves = model.moves();
        self.standing.change(self.alloc, model, event)?;
        Ok(())
    }

    /// What the next tick observes besides the mirrored variables.
    pub fn pending(&self) -> &Seen
        ensures { result.now.pairs ≡ self.now.pending }
    {
        &self.standing.known.pending
    }

    /// The mirrored variables.
    pub fn mirrored(&self) -> VarSet
        ensures { result ≡ self.now.mirrored }
    {
        self.standing.known.mirrored
    }

    /// How many ticks had a yes.
    pub fn ticks(&self) -> u64
        ensures { result ≡ self.now.ticks }
    {
        self.standing.ticks
    }

    /// The verdict on a printed tick by the clauses of the model's rules, which are made once for many ticks: `Yes` exactly where all
    /// tests pass, and else `No` with the least reason whose test fails. The error is out of memory.
    pub fn check_tick_by(
        &mut self,
        model: &Model,
        worlds: &Worlds,
        report: &TickReport,
        world: Option<&World>,
        route: Option<&Route>,
    ) -> Result<Verdict, AllocError>
        requires of { AreWorldsOf model.now worlds.now }
        requires all { HasWorlds model.now }
        requires fits { FitsModel model.now self.old }
        ensures verdict { IfOk result (IsVerdict model.now self.old
            (printed report.now world.entry route.entry)) }
        ensures takes { IfOk result (λ verdict.
            TakesAtYes model.now self.old report.now.shown verdict self.new) }
        ensures fits { FitsModel model.now self.new }
        ensures err { OnErr result (self.new ≡ self.old) }

        // What a yes shows, by rules and guards alone.
        ensures successor { IfOk result (λ verdict.
            OnYes verdict (ShowsSuccessor model.now self.old
            (printed report.now world.entry route.entry))) }
        ensures reply { IfOk result (λ verdict.
            OnYes verdict (ShowsReply self.old (printed report.now world.entry route.entry))) }
        ensures safety { IfOk result (λ verdict.
            OnYes verdict (ShowsSafety model.now self.old
            (printed report.now world.entry route.entry))) }
    {
        let rules = rules_of(self.alloc, model, worlds);
        let tick = Tick {
            report,
            world,
            route,
        };
        // Memory in which the tick's guards ask for worlds, made at the first of them.
        let mut space = None;
        let verdict = judge(&rules, &self.standing, &tick, &mut space)?;
        if verdict != Verdict::Yes {
            return Ok(verdict);
        }
        take(&rules, &mut self.standing, report, &mut space)?;
        Ok(verdict)
    }

    /// The same for one tick alone: `Yes` exactly where all tests pass, and else `No` with the least reason whose test fails.
    /// The error is out of memory.
    pub fn check_tick(
        &mut self,
        model: &Model,
        report: &TickReport,
        world: Option<&World>,
        route: Option<&Route>,
    ) -> Result<Verdict, AllocError>
        requires worlds { HasWorlds model.now }
        requires fits { FitsModel model.now self.old }
        ensures verdict { IfOk result (IsVerdict model.now self.old
            (printed report.now world.entry route.entry)) }
        ensures takes { IfOk result (λ verdict.
            TakesAtYes model.now self.old report.now.shown verdict self.new) }
        ensures fits { FitsModel model.now self.new }
        ensures err { OnErr result (self.new ≡ self.old) }

        // What a yes shows, by rules and guards alone.
        ensures successor { IfOk result (λ verdict.
            OnYes verdict (ShowsSuccessor model.now self.old
            (printed report.now world.entry route.entry))) }
        ensures reply { IfOk result (λ verdict.
            OnYes verdict (ShowsReply self.old (printed report.now world.entry route.entry))) }
        ensures safety { IfOk result (λ verdict.
            OnYes verdict (ShowsSafety model.now self.old
            (printed report.now world.entry route.entry))) }
    {
        let worlds = Worlds::of(self.alloc, model)?;
        self.check_tick_by(model, &worlds, report, world, route)
    }
}
