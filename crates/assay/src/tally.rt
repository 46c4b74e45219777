// In how many of the seeds a task is done.
ghost use Rattle.std.specs.Prelude.{◌≡◌, ◌<◌};
ghost use Rattle.assay.specs.Assay.{has_doers, seeds_with, seeds_with_each};

use crate::assayed::Assay;
use logic_tasks::TASK_COUNT;

impl Assay {
    /// Whether some of the living have done the task at this place of the order after the last
    /// update.
    fn has_doers(&self, task: usize) -> bool
        requires { task < 9 }
        ensures { result ≡ has_doers task self.now }
    {
        self.last.tasks[task] > 0
    }
}

/// In how many of these runs some of the living have done each task after the last update, in the
/// order of the tasks.
pub fn seeds_with_each(assays: &[Assay]) -> [u64; TASK_COUNT]
    ensures { result ≡ seeds_with_each assays.now }
{
    let mut seeds = [0; TASK_COUNT];
    for (task, count) in seeds.iter_mut().enumerate() {
        *count = seeds_with(assays, task);
    }
    seeds
}

fn seeds_with(assays: &[Assay], task: usize) -> u64
    requires { task < 9 }
    ensures { result ≡ seeds_with assays.now task }
{
    assays.iter().filter(|assay| assay.has_doers(task)).count() as u64
}
