// Which task an output does.
ghost use Rattle.std.specs.Prelude.{◌≡◌, ◌<◌, length};
ghost use Rattle.std.specs.Int.{cast_unsigned};
ghost use Rattle.logic_tasks.specs.LogicTasks.{computes, does_pair, does_with, does, task_done};

use crate::{Inputs, TASKS, Task};

/// The first task of the table that the output does with the inputs read so far.
#[tactic(auto, unfolding(crate::specs::LogicTasks::task_done))]
pub fn done(output: i32, inputs: &Inputs, read: u64) -> Option<Task>
    ensures { result ≡ task_done output inputs.now read }
{
    let known = inputs.known(read);
    let word = output.cast_unsigned();
    TASKS.iter().copied().find(|task| does(*task, word, known))
}

/// Whether the output is what the task makes of two of these inputs.
fn does(task: Task, output: u32, known: &[u32]) -> bool
    ensures { result ≡ does task output known.now }
{
    for first in 0..known.len() {
        if does_with(task, output, known, first) {
            return true;
        }
    }
    false
}

/// Whether it does so with the input at a place and another.
fn does_with(task: Task, output: u32, known: &[u32], first: usize) -> bool
    requires { first < length known.now }
    ensures { result ≡ does_with task output known.now first }
{
    for second in 0..known.len() {
        if does_pair(task, output, known, first, second) {
            return true;
        }
    }
    false
}

fn does_pair(task: Task, output: u32, known: &[u32], first: usize, second: usize) -> bool
    requires first { first < length known.now }
    requires second { second < length known.now }
    ensures { result ≡ does_pair task output known.now first second }
{
    (first != second || task == Task::Not) && computes(task, output, known[first], known[second])
}

fn computes(task: Task, output: u32, x: u32, y: u32) -> bool
    ensures { result ≡ computes task output x y }
{
    task.word(x, y) == output
}
