//! The runner of a control program.

ghost use Rattle.std.specs.Prelude.{◌≡◌, ◌↔◌, All, IfOk, OnErr, IsTrue, IsNone};
ghost use Rattle.cca_base.specs.Prelude.{IsState};
ghost use Rattle.consistency.specs.Worlds.{AreWorldsOf};
ghost use Rattle.control_laws.specs.Rest.{whole};
ghost use Rattle.control_laws.specs.Turns.{TurnsBy, fresh};
ghost use Rattle.control_program.specs.Formulas.{formulas_left, IsWithin};

use crate::asking::Asking;
use crate::marks::clear;
use crate::nodes::{Mark, Node};
use crate::opening::{fresh_marks, lay};
use crate::turn_room::TurnRoom;
use crate::turning::turn_at;
use cca_base::{List, Model, Pair, State};
use consistency::{Worlds, put_pairs};
use control_syntax::Part;
use std::alloc::{AllocError, Global};
use std::mem;

/// A control program, and how far it has come. It keeps one flat list of the program's nodes, with a mark for each.
#[derive(Debug, Drop)]
pub struct Runner {
    alloc: Global,
    pub(crate) nodes: Vec<Node, Global>,
    marks: List<Mark>,
    ended: bool,
}

impl std::marker::Model for Runner {
    ghost use Rattle.control_laws.specs.Turns.{Control};
    ghost use Rattle.control_program.specs.Codes.{control_coded};
    ghost use Rattle.control_program.specs.Running.{RunsBy, control_of};

    ghost Value = { Control };

    ghost coded = { control_coded };

    ghost view = { λ r. control_of r.nodes.items r.marks };

    ghost invariant = { λ r. RunsBy r.nodes.items r.marks r.ended };
}

impl Runner {
    ghost use Rattle.control_program.specs.Rooms.{IsTurnRoomOf, goal_in};

    /// The runner of a program of which all is left. The part is gone in any case. The error is out of memory.
    pub fn open(alloc: Global, part: Part) -> Result<Runner, AllocError>
        ensures { IfOk result (λ r. r ≡ fresh (whole part)) }
    {
        let mut nodes = Vec::new(alloc);
        lay(part, &mut nodes)?;
        nodes.reverse();
        let marks = fresh_marks(alloc, nodes.as_slice())?;
        Ok(Runner {
            alloc,
            nodes,
            marks,
            ended: false,
        })
    }

    /// A turn with the estimate, in room that was made for the program: its goal stands there. It takes no memory.
    pub fn turn_in(&mut self, model: &Model, worlds: &Worlds, estimate: &State, room: &mut TurnRoom)
        requires of { AreWorldsOf model.now worlds.now }
        requires state { IsState model.now estimate.now.modes }
        requires room { IsTurnRoomOf model.now self.old.program room.old }
        ensures turn { TurnsBy model.now estimate.now.modes self.old (goal_in room.new) self.new }
        ensures room { IsTurnRoomOf model.now self.old.program room.new }
    {
        // (a model is well formed)
        let _moves = model.moves();
        put_pairs(estimate.modes.as_slice(), &mut room.modes);
        room.course.goal.clear();
        // The marks are lent to the turn.
        mem::swap(&mut self.marks, &mut room.course.marks);
        let asking = Asking {
            model,
            worlds,
            estimate,
            modes: room.modes.as_slice(),
            nodes: self.nodes.as_slice(),
            denials: room.denials.as_slice(),
        };
        self.ended = turn_at(&asking, &mut room.course, 0);
        mem::swap(&mut self.marks, &mut room.course.marks);
    }

    /// A turn with the estimate, whose worlds the caller has: what it asks for. The error is out of memory.
    pub fn turn_by(
        &mut self,
        model: &Model,
        worlds: &Worlds,
        estimate: &State,
    ) -> Result<List<Pair>, AllocError>
        requires of { AreWorldsOf model.now worlds.now }
        requires state { IsState model.now estimate.now.modes }
        requires formulas { All (IsWithin model.now) (formulas_left self.old.program) }
        ensures ok { IfOk result (λ goal.
            TurnsBy model.now estimate.now.modes self.old goal self.new) }
        ensures err { OnErr result (self.new ≡ self.old) }
    {
        let mut room = TurnRoom::of(self.alloc, model, worlds, self)?;
        self.turn_in(model, worlds, estimate, &mut room);
        Ok(room.into_goal())
    }

    /// A turn with the estimate: what it asks for. The clauses of the model's rules are made anew. The error is out of memory.
    pub fn turn(&mut self, model: &Model, estimate: &State) -> Result<List<Pair>, AllocError>
        requires state { IsState model.now estimate.now.modes }
        requires formulas { All (IsWithin model.now) (formulas_left self.old.program) }
        ensures ok { IfOk result (λ goal.
            TurnsBy model.now estimate.now.modes self.old goal self.new) }
        ensures err { OnErr result (self.new ≡ self.old) }
    {
        let worlds = Worlds::of(self.alloc, model)?;
        self.turn_by(model, &worlds, estimate)
    }

    /// Whether nothing of the program is left.
    pub fn ended(&self) -> bool
        ensures { IsTrue result ↔ IsNone self.now.left }
    {
        self.ended
    }

    /// Begins the program again. It takes no memory.
    pub fn reset(&mut self)
        ensures { self.new ≡ fresh self.old.program }
    {
        let count = self.nodes.len();
        clear(self.nodes.as_slice(), &mut self.marks, 0, count);
        self.ended = false;
    }
}
