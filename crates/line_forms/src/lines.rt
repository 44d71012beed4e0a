//! The machine of lines that each ask for something.

ghost use Rattle.std.specs.Prelude.{◌≡◌, IfOk};

use crate::line_form::{LineForm, OpensLines};
use line_machine::{End, Machine, Out};
use model_form::{Accepted, BehindModel, refuse_code_to, refuse_stop_to};
use std::alloc::{AllocError, Global};

/// The machine of a form by its lines.
#[derive(Drop)]
pub struct Lines<L, I> {
    form: L,
    /// The place into which a line's item is read.
    item: I,
}

impl<L, I> std::marker::Model for Lines<L, I> {
    ghost Value = { L };

    ghost view = { λ w. w.form };
}

impl<L: LineForm<I> + Drop, I: Drop> Lines<L, I> {
    /// The machine where the form stands. The error is out of memory.
    pub fn new(alloc: Global, form: L) -> Result<Lines<L, I>, AllocError>
        ensures { IfOk result (λ w. w ≡ form) }
    {
        let item = form.place(alloc)?;
        Ok(Lines { form, item })
    }
}

// By the clauses of the trait a line gives `LineSteps`, and the end of the input `LineCloses` (specs/LinesMachine.antt).
impl<L: LineForm<I> + Drop, I: Drop> Machine for Lines<L, I> {
    ghost use Rattle.line_forms.specs.LinesMachine.{lines_machine, line_steps_are_one, line_closes_are_one};

    ghost limit_of = { (lines_machine L.means).limit_of };

    ghost refusal = { (lines_machine L.means).refusal };

    ghost steps = { (lines_machine L.means).steps };

    ghost closes = { (lines_machine L.means).closes };

    ghost awaits = { (lines_machine L.means).awaits };

    ghost steady = { (lines_machine L.means).steady };

    ghost steps_are_one = { line_steps_are_one L.means L.said_one L.serves_one };

    ghost closes_are_one = { line_closes_are_one L.means };

    fn limit(&self) -> usize {
        self.form.limit()
    }

    fn skips_empty(&self) -> bool {
        self.form.skips_empty()
    }

    fn refuse(
        &self,
        alloc: Global,
        number: u64,
        code: u8,
        out: &mut Out,
    ) -> Result<(), AllocError> {
        let json = self.form.is_json();
        refuse_code_to(alloc, json, self.form.model(), number, code, out)
    }

    fn step(
        &mut self,
        alloc: Global,
        number: u64,
        line: &[u8],
        out: &mut Out,
    ) -> Result<Option<End>, AllocError> {
        match self.form.read(alloc, line, &mut self.item) {
            Ok(true) => self.form.serve(alloc, number, &mut self.item, out),
            Ok(false) => Ok(None),
            Err(stop) => {
                let json = self.form.is_json();
                refuse_stop_to(alloc, json, self.form.model(), number, &stop, out)?;
                Ok(Some(End::Refused))
            }
        }
    }

    fn close(&mut self, alloc: Global, count: u64, out: &mut Out) -> Result<End, AllocError> {
        self.form.close(alloc, count, out)
    }
}

impl<L: OpensLines<I> + Drop, I: Drop> BehindModel for Lines<L, I> {
    ghost first = { L.first };

    fn open(alloc: Global, accepted: Accepted) -> Result<Lines<L, I>, AllocError> {
        let form = L::open(alloc, accepted)?;
        let lines = Lines::new(alloc, form)?;
        Ok(lines)
    }
}
