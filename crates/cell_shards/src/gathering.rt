// Jobs that have run, in order of their numbers.
ghost use Rattle.std.specs.Prelude.{All, IfOk};
ghost use Rattle.cell_shards.specs.CellLives.{RoundNumbers};
ghost use Rattle.cell_shards.specs.Finishing.{AreFinished, HasRun};

use crate::done::Done;
use crate::finished::Finished;
use crate::pool::Pool;
use avida_port::Memory;
use std::alloc::Global;

/// All jobs of a pool, finished, in their order. Where one is missing, memory ran out for it.
pub(crate) fn in_order(
    alloc: Global,
    pool: &Pool,
    mut done: Vec<Done>,
) -> Result<Vec<Finished>, Memory>
    ensures { IfOk result (λ all. (round : RoundNumbers)
        → All (HasRun round pool.now.jobs) done.items
        → AreFinished round pool.now.jobs all.items) }
{
    done.sort_unstable_by_key(|one| one.number);
    let mut all = Vec::with_capacity(alloc, done.len())?;
    for one in done {
        let Done {
            number,
            finished,
            ..
        } = one;
        if number != all.len() {
            return Err(Memory);
        }
        all.push(finished)?;
    }
    if all.len() != pool.len() {
        return Err(Memory);
    }
    Ok(all)
}
