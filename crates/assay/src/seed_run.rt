// The run of one seed.
ghost use Rattle.std.specs.Prelude.{◌≡◌, ◌≤◌, IfOk, option_map};
ghost use Rattle.genome.specs.Genome.{letters};
ghost use Rattle.world_config.specs.Values.{values_of, ConfigValues};
ghost use Rattle.logged_run.specs.RunText.{IsEndOf};
ghost use Rattle.assay.specs.Assay.{assay_of_seed, dominant_after, with_seed};

use crate::assayed::Assay;
use avida_port::{Gate, Memory};
use genome::Genome;
use logged_run::{Sums, run_counted};
use std::alloc::Global;
use std::sync::Wait;
use std::thread::Threads;
use world_config::Config;
use world_core::World;

/// The genome that most of the living have.
fn dominant_in(alloc: Global, world: &World) -> Result<Option<Genome>, Memory>
    ensures { IfOk result (λ dominant. option_map letters dominant
        ≡ dominant_after world.now.config world.now.update) }
{
    let picture = world.picture(alloc)?;
    match &picture.dominant {
        Some(dominant) => Ok(Some(dominant.genome.copy(alloc)?)),
        None => Ok(None),
    }
}

/// What became of a seed's run that came to this end.
fn assay_of(alloc: Global, seed: u64, world: &World, sums: Sums) -> Result<Assay, Memory>
    ensures { (config : ConfigValues) → IsEndOf (with_seed config seed) world.now sums
        → IfOk result (λ assay. assay ≡ assay_of_seed config seed) }
{
    let dominant = dominant_in(alloc, world)?;
    Ok(Assay {
        seed,
        births: sums.births,
        deaths: sums.deaths,
        last: world.stats(),
        dominant,
    })
}

/// Runs the configuration with this seed to its end.
pub(crate) fn run_seed<R: Threads + Wait + Sync, G: Gate + Sync>(
    rt: &R,
    alloc: Global,
    config: &Config,
    seed: u64,
    workers: u32,
    gate: &G,
) -> Result<Assay, Memory>
    requires seed { seed ≤ 9223372036854775807 }
    requires workers { (1 ≤ workers) × (workers ≤ 64) }
    ensures { IfOk result (λ assay. assay ≡ assay_of_seed (values_of config.now) seed) }
{
    let config = config.with_seed(alloc, seed)?;
    let (world, sums) = run_counted(rt, alloc, config, workers, gate)?;
    assay_of(alloc, seed, &world, sums)
}
