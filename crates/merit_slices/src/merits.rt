// The merit of a divide.
ghost use Rattle.std.specs.Prelude.{◌≡◌, ◌≤◌, ◌^◌};
ghost use Rattle.merit_slices.specs.Merit.{exponent_of, exponent_in, exponent_sum, merit_of};

use logic_tasks::{TASKS, Task, Tasks};

/// The merit of a divide: the smallest of the three numbers, doubled as often as the tasks say.
pub fn merit(length: u32, executed: u32, copied: u32, tasks: Tasks) -> u64
    requires { length ≤ 8192 }
    ensures merit { result ≡ merit_of length executed copied tasks }
    ensures bounded { result ≤ 2 ^ 38 }
    ensures positive { 1 ≤ length → 1 ≤ executed → 1 ≤ copied → 1 ≤ result }
{
    let least = length.min(executed).min(copied);
    u64::from(least) * (1 << doublings(tasks))
}

/// How often the tasks of a set double a merit.
fn doublings(tasks: Tasks) -> u32
    ensures sum { result ≡ exponent_sum tasks }
    ensures bounded { result ≤ 25 }
{
    let mut sum = 0;
    for task in TASKS {
        sum += exponent_in(tasks, task);
    }
    sum
}

fn exponent_in(tasks: Tasks, task: Task) -> u32
    ensures value { result ≡ exponent_in tasks task }
    ensures small { result ≤ 5 }
{
    if tasks.has(task) { exponent(task) } else { 0 }
}

fn exponent(task: Task) -> u32
    ensures value { result ≡ exponent_of task }
    ensures small { result ≤ 5 }
{
    match task {
        Task::Not | Task::Nand => 1,
        Task::And | Task::Orn => 2,
        Task::Or | Task::Andn => 3,
        Task::Nor | Task::Xor => 4,
        Task::Equ => 5,
    }
}
