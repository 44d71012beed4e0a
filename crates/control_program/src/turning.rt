//! One turn of a program's marks, part by part, from the first. It tests only what the turn reaches.

ghost use Rattle.std.specs.Prelude.{◌≡◌, map, slice_get, Some};
ghost use Rattle.control_program.specs.Courses.{StandsIn, StandIn, TaskIn, TurnsIn, WorksIn, TurnIn};
ghost use Rattle.control_program.specs.Questions.{node_question, task_question};
ghost use Rattle.control_program.specs.Rooms.{IsReady};

use crate::asking::{Asking, Course, holds, reaches};
use crate::nodes::{Kind, Mark, Task, is_ended, node_at};
use crate::rounds::{choose, end_round};

/// The turn of the part at a place. The answer is whether it has ended.
#[cycle(turning)]
pub(crate) fn turn_at(asking: &Asking, course: &mut Course, at: usize) -> bool
    requires stands { StandsIn asking.now course.old.marks at }
    requires ready { IsReady asking.now course.old }
    ensures turns { TurnsIn asking.now at course.old result course.new }
    ensures ready { IsReady asking.now course.new }
{
    match &node_at(asking.nodes, at).kind {
        Kind::Once(task) => {
            if is_ended(*course.marks.get(at)) {
                return true;
            }
            if !work(asking, course, at, task) {
                return false;
            }
            course.marks.set(at, Mark::Ended);
            true
        }
        Kind::Choose(_) => {
            let part = choose(asking, &mut course.marks, at, &mut course.space);
            turn_at(asking, course, part)
        }
        Kind::Repeat(number) => {
            if !turn_at(asking, course, at + 1) {
                return false;
            }
            end_round(asking.nodes, &mut course.marks, at, *number)
        }
    }
}

/// The turn of a task that has not ended. The answer is whether it has now; its own mark is not written.
#[cycle(turning)]
fn work(asking: &Asking, course: &mut Course, at: usize, task: &Task) -> bool
    requires task { TaskIn asking.now course.old.marks at task.now }
    requires ready { IsReady asking.now course.old }
    requires node { slice_get (map node_question asking.now.nodes.now) at ≡ Some (task_question task.now) }
    ensures works { WorksIn asking.now at task.now course.old result course.new }
    ensures ready { IsReady asking.now course.new }
{
    match task {
        Task::Reach(pairs) => reaches(asking, &mut course.goal, pairs),
        Task::Await(_) => holds(asking, at, &mut course.space),
        Task::Parts(in_order, count) => turn_parts(asking, course, at + 1, *in_order, *count),
    }
}

/// The turns of so many parts: one after the other up to the first that is left, or side by side. The answer is whether
/// all have ended.
#[cycle(turning)]
fn turn_parts(asking: &Asking, course: &mut Course, at: usize, in_order: bool, count: usize) -> bool
    requires stand { StandIn asking.now course.old.marks at count }
    requires ready { IsReady asking.now course.old }
    ensures turn { TurnIn asking.now in_order at count course.old result course.new }
    ensures ready { IsReady asking.now course.new }
{
    let mut place = at;
    let mut all_ended = true;
    for _ in 0..count {
        let end = place + node_at(asking.nodes, place).size;
        let ended = turn_at(asking, course, place);
        if in_order & !ended {
            return false;
        }
        all_ended = all_ended & ended;
        place = end;
    }
    all_ended
}
