// Sets of tasks.
ghost use Rattle.std.specs.Prelude.{◌≡◌, ◌<◌, ◌==◌};
ghost use Rattle.std.specs.Cmp.Rules.{comparing};
ghost use Rattle.std.proofs.Common.{rules};
ghost use Rattle.logic_tasks.specs.LogicTasks.{bits_of_tasks, tasks_of, no_tasks, has_task, with_task};

use crate::Task;
use std::marker::Model;

/// A set of tasks, which has a bit for each.
#[derive(Clone, Copy, Debug)]
pub struct Tasks {
    bits: u16,
}

impl Model for Tasks {
    ghost use Rattle.std.specs.Prelude.{◌<◌, List, Bool};
    ghost use Rattle.std.proofs.Common.{ap};
    ghost use Rattle.logic_tasks.specs.LogicTasks.{tasks_of, bits_of_tasks};
    ghost use Rattle.logic_tasks.specs.TaskBitsLaws.{number_of-tasks_of};

    ghost Value = { List Bool };

    ghost view = { λ tasks. tasks_of tasks.bits };

    ghost invariant = { λ tasks. tasks.bits < 512 };

    ghost inverse = { λ tasks. record { bits = bits_of_tasks tasks } };

    ghost inverse_ok = { λ tasks small. ap (λ bits. record { bits = bits })
        (number_of-tasks_of tasks.bits small) };
}

impl Tasks {
    /// The empty set.
    pub fn none() -> Tasks
        ensures { result ≡ no_tasks }
    {
        Tasks { bits: 0 }
    }

    /// The set whose number this is: task number p of the table, from 1, has the value 2^(p - 1).
    pub fn of_number(number: u16) -> Tasks
        requires { number < 512 }
        ensures { result ≡ tasks_of number }
    {
        Tasks { bits: number }
    }

    /// The number of the set: task number p of the table, from 1, has the value 2^(p - 1).
    #[tactic(auto, using(crate::proofs::TaskBitsLemmas::set_numbers))]
    pub fn number(self) -> u16
        ensures number { result ≡ bits_of_tasks self }
        ensures below { result < 512 }
    {
        self.bits
    }

    /// Whether the set has the task.
    pub fn has(self, task: Task) -> bool
        ensures { result ≡ has_task self task }
    {
        self.bits >> task.place() & 1 == 1
    }

    /// The set and this task.
    pub fn with(self, task: Task) -> Tasks
        ensures { result ≡ with_task self task }
    {
        Tasks {
            bits: self.bits | 1 << task.place(),
        }
    }
}

impl PartialEq for Tasks {
    ghost eq = { λ a b. bits_of_tasks a == bits_of_tasks b };

    ghost laws = { Prim.search (comparing, rules) };

    fn eq(&self, other: &Tasks) -> bool {
        self.bits == other.bits
    }
}

impl Eq for Tasks {
    ghost laws = { Prim.search (comparing, rules) };
}
