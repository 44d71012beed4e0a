//! What is asked of a window, with what is made once for all questions.

ghost use Rattle.std.specs.Prelude.{◌≡◌, ◌≤◌, All, length, map};
ghost use Rattle.cca_base.specs.Prelude.{IsCompiled, IsState};
ghost use Rattle.consistency.specs.Worlds.{AreWorldsOf};
ghost use Rattle.trajectory_estimator.specs.Asked.{AreValues, entry_of};
ghost use Rattle.trajectory_estimator.specs.Changes.{AreChangesOf};
ghost use Rattle.trajectory_estimator.specs.Queries.{IsAsked};
ghost use Rattle.trajectory_estimator.specs.declared.record.TheConstants.{MAX_WINDOW};

use crate::changes::Changes;
use crate::record::Record;
use cca_base::{Compiled, Model, State};
use consistency::Worlds;
use std::alloc::Global;

/// What is asked of a window. A contract sees its model with the clauses of its rules, the state before it, and what is known of each tick.
#[derive(Drop)]
pub struct Query<'a> {
    alloc: Global,
    compiled: &'a Compiled,
    model: &'a Model,
    worlds: &'a Worlds,
    changes: &'a Changes,
    anchor: &'a State,
    records: &'a [Record],
}

impl<'a> std::marker::Model for Query<'a> {
    ghost use Rattle.std.specs.Prelude.{◌≡◌, map};
    ghost use Rattle.cca_base.specs.Prelude.{model_codes};
    ghost use Rattle.trajectory_estimator.specs.Asked.{Asked, entry_of};
    ghost use Rattle.trajectory_estimator.specs.Queries.{IsQuery};

    ghost Value = { Asked };

    ghost coded = { Prim.hlevel model_codes };

    ghost view = { λ q. record {
      model = q.compiled.now.model;
      worlds = q.worlds.now;
      anchor = q.anchor.now.modes;
      records = map entry_of q.records.now;
    } };

    ghost invariant = { λ q. IsQuery q.compiled.now q.changes.now (record {
      model = q.compiled.now.model;
      worlds = q.worlds.now;
      anchor = q.anchor.now.modes;
      records = map entry_of q.records.now;
    }) × (q.model.now ≡ q.compiled.now.model) };
}

impl<'a> Query<'a> {
    /// The question.
    pub fn new(
        alloc: Global,
        compiled: &'a Compiled,
        worlds: &'a Worlds,
        changes: &'a Changes,
        anchor: &'a State,
        records: &'a [Record],
    ) -> Query<'a>
        requires worlds { AreWorldsOf compiled.now.model worlds.now }
        requires changes { AreChangesOf compiled.now.model changes.now }
        requires anchor { IsState compiled.now.model anchor.now.modes }
        requires few { length records.now ≤ MAX_WINDOW }
        requires values { All (AreValues compiled.now.model) (map entry_of records.now) }
        ensures { result ≡ record {
          model = compiled.now.model;
          worlds = worlds.now;
          anchor = anchor.now.modes;
          records = map entry_of records.now;
        } }
    {
        Query {
            alloc,
            compiled,
            model: compiled.model(),
            worlds,
            changes,
            anchor,
            records,
        }
    }

    /// Where memory is taken.
    pub fn alloc(&self) -> Global
        ensures { IsAsked self.now }
    {
        self.alloc
    }

    /// The compiled model.
    pub fn compiled(&self) -> &'a Compiled
        ensures model { result.now.model ≡ self.now.model }
        ensures compiled { IsCompiled result.now }
    {
        self.compiled
    }

    /// The model.
    pub fn model(&self) -> &'a Model
        ensures value { result.now ≡ self.now.model }
        ensures asked { IsAsked self.now }
    {
        self.model
    }

    /// The clauses of its rules.
    pub fn worlds(&self) -> &'a Worlds
        ensures value { result.now ≡ self.now.worlds }
        ensures of { AreWorldsOf self.now.model result.now }
    {
        self.worlds
    }

    /// What its failures cost.
    pub fn changes(&self) -> &'a Changes
        ensures { AreChangesOf self.now.model result.now }
    {
        self.changes
    }

    /// The state before the window.
    pub fn anchor(&self) -> &'a State
        ensures value { result.now.modes ≡ self.now.anchor }
        ensures state { IsState self.now.model self.now.anchor }
        ensures asked { IsAsked self.now }
    {
        self.anchor
    }

    /// What is known of each tick, the oldest first.
    pub fn records(&self) -> &'a [Record]
        ensures value { map entry_of result.now ≡ self.now.records }
        ensures asked { IsAsked self.now }
        ensures few { length result.now ≤ MAX_WINDOW }
        ensures values { All (AreValues self.now.model) self.now.records }
    {
        self.records
    }
}
