// How many organisms have each task.
ghost use Rattle.std.specs.Prelude.{◌≡◌, ◌<◌, ◌^◌, All};
ghost use Rattle.census.specs.Changes.{tasks_with, tasks_without, AreCounted};

use logic_tasks::{TASK_COUNT, TASKS, Tasks};

/// One more has each of these tasks.
pub(crate) fn raise_tasks(counts: &mut [u64; TASK_COUNT], credited: Tasks)
    requires { All (λ count. count < 2 ^ 32) counts.old }
    ensures { counts.new ≡ tasks_with counts.old credited }
{
    for (place, task) in TASKS.iter().enumerate() {
        counts[place] += u64::from(credited.has(*task));
    }
}

/// One fewer has each of these tasks.
pub(crate) fn lower_tasks(counts: &mut [u64; TASK_COUNT], credited: Tasks)
    requires { AreCounted counts.old credited }
    ensures { counts.new ≡ tasks_without counts.old credited }
{
    for (place, task) in TASKS.iter().enumerate() {
        counts[place] -= u64::from(credited.has(*task));
    }
}
