//! The cells of one component, a row for each mode in which it may stand.

ghost use Rattle.std.specs.Prelude.{◌≡◌, ◌+◌, ◌*◌, ◌<◌, length, slice_index};
ghost use Rattle.cca_base.specs.Prelude.{mode_counts, HasMode};
ghost use Rattle.policy_tables.specs.Codes.{AreSorted, IsCode, cell_of};
ghost use Rattle.policy_tables.specs.Filling.{HasRoom, MayStand, AreRightRows, AreRightCells};
ghost use Rattle.policy_tables.specs.Leaving.{IsLeavingOf};
ghost use Rattle.reach_laws.specs.Cells.{IsCell};
ghost use Rattle.reversibility.specs.ClassParts.{in_row};
ghost use Rattle.reversibility.specs.Paths.{ArePaths};

use crate::code::Code;
use crate::leaving::Leaving;
use crate::near::{distance, first_near};
use cca_base::{Cube, List};
use reversibility::{Classes, Paths};

/// Room in which cells are made, the same for all components.
#[derive(Debug, Drop)]
pub(crate) struct Work {
    pub paths: Paths,
    pub leaving: Leaving,
}

/// The cell to a mode from the mode that the moves leave, in which the component may stand.
fn code(classes: &Classes, ways: &List<List<Cube>>, work: &Work, to: u8) -> Code
    requires within { work.now.leaving.component < length classes.now.compiled.model.components }
    requires from { HasMode classes.now.compiled.model work.now.leaving.component work.now.leaving.mode }
    requires to { HasMode classes.now.compiled.model work.now.leaving.component to }
    requires stands { MayStand classes.now work.now.leaving.component work.now.leaving.mode }
    requires paths { ArePaths classes.now.compiled.model (in_row classes.now.rows)
        work.now.leaving.component work.now.paths }
    requires leaving { IsLeavingOf classes.now.compiled ways.now (in_row classes.now.rows) work.now.leaving }
    ensures cell { IsCell classes.now.compiled (in_row classes.now.rows)
        work.now.leaving.component work.now.leaving.mode to (cell_of ways.now result) }
    ensures code { IsCode ways.now result }
{
    let leaving = &work.leaving;
    if leaving.mode == to {
        return Code::Stay;
    }
    if !classes.class(leaving.component).has(to) {
        return Code::Never;
    }
    let Some(left) = distance(&work.paths, leaving.mode, to) else {
        unreachable!()
    };
    let level = work.paths.level(left - 1);
    let model = classes.compiled().model();
    let Some(place) = first_near(model, leaving.numbers.as_slice(), level, to) else {
        unreachable!()
    };
    let number = *leaving.numbers.get(place);
    Code::Step {
        number,
        command: model.moves().get(number as usize).command,
        way: *leaving.ways.get(place),
        left: left as u8,
    }
}

/// Writes the cells from a mode in which the component may stand.
fn write_row(classes: &Classes, ways: &List<List<Cube>>, work: &Work, codes: &mut List<Code>)
    requires within { work.now.leaving.component < length classes.now.compiled.model.components }
    requires from { HasMode classes.now.compiled.model work.now.leaving.component work.now.leaving.mode }
    requires stands { MayStand classes.now work.now.leaving.component work.now.leaving.mode }
    requires paths { ArePaths classes.now.compiled.model (in_row classes.now.rows)
        work.now.leaving.component work.now.paths }
    requires leaving { IsLeavingOf classes.now.compiled ways.now (in_row classes.now.rows) work.now.leaving }
    requires rows { AreRightRows classes.now ways.now work.now.leaving.component work.now.leaving.mode codes.old }
    ensures { AreRightRows classes.now ways.now work.now.leaving.component (work.now.leaving.mode + 1) codes.new }
{
    let components = classes.compiled().model().components();
    let modes = components.get(work.leaving.component as usize).modes.len();
    for to in 0..modes {
        let code = code(classes, ways, work, to as u8);
        codes.set(work.leaving.mode as usize * modes + to, code);
    }
}

/// Writes a cell that says never for each mode.
fn skip_row(
    classes: &Classes,
    ways: &List<List<Cube>>,
    component: u16,
    from: u8,
    codes: &mut List<Code>,
)
    requires within { component < length classes.now.compiled.model.components }
    requires from { HasMode classes.now.compiled.model component from }
    requires stands { MayStand classes.now component from → ⊥ }
    requires rows { AreRightRows classes.now ways.now component from codes.old }
    ensures { AreRightRows classes.now ways.now component (from + 1) codes.new }
{
    let components = classes.compiled().model().components();
    let modes = components.get(component as usize).modes.len();
    for to in 0..modes {
        codes.set(from as usize * modes + to, Code::Never);
    }
}

/// Writes the cells of a component, each row of its modes after the other.
pub(crate) fn write_cells(
    classes: &Classes,
    ways: &List<List<Cube>>,
    component: u16,
    work: &mut Work,
    codes: &mut List<Code>,
)
    requires within { component < length classes.now.compiled.model.components }
    requires ways { AreSorted classes.now.compiled ways.now }
    requires room { HasRoom work.old }
    requires full { length codes.old ≡ slice_index (mode_counts classes.now.compiled.model) component
        * slice_index (mode_counts classes.now.compiled.model) component }
    ensures cells { AreRightCells classes.now ways.now component codes.new }
    ensures room { HasRoom work.new }
{
    let compiled = classes.compiled();
    work.paths.find(compiled, classes.rows(), component);
    let components = compiled.model().components();
    for from in 0..components.get(component as usize).modes.len() {
        if classes.stands(component, from as u8) {
            work.leaving
                .find(classes, ways, &work.paths, component, from as u8);
            write_row(classes, ways, work, codes);
        } else {
            skip_row(classes, ways, component, from as u8, codes);
        }
    }
}
