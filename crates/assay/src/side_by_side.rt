// The runs of several seeds, side by side.
ghost use Rattle.std.specs.Prelude.{◌≡◌, ◌≤◌, ◌<◌, ℕ, All, IfOk, Ok, length, map, slice_index_or};
ghost use Rattle.std.specs.List.{range_with_len};
ghost use Rattle.world_config.specs.Values.{values_of};
ghost use Rattle.assay.specs.Assay.{assay_list, assay_of_seed};

use crate::assayed::{Assay, Assays};
use crate::seed_run::run_seed;
use avida_port::{Gate, Memory};
use std::alloc::{AllocError, Global};
use std::sync::Wait;
use std::thread;
use std::thread::Threads;
use world_config::Config;

/// Runs the configuration with `count` consecutive seeds side by side, each in a thread of its own
/// where one can be made, and each as a world of its own with `workers` workers. The
/// configuration's own seed isn't used. The list is in order of the seeds. It may wait, since a
/// world may.
#[tactic(auto, unfolding(crate::specs::Assay::assay_list))]
pub fn assay<R: Threads + Wait + Sync, G: Gate + Sync>(
    rt: &R,
    alloc: Global,
    config: &Config,
    first: u64,
    count: u32,
    workers: u32,
    gate: &G,
) -> Result<Assays, Memory>
    requires first { first ≤ 9223372036854775744 }
    requires count { (1 ≤ count) × (count ≤ 64) }
    requires workers { (1 ≤ workers) × (workers ≤ 64) }
    ensures { IfOk result (λ assays. assays ≡ assay_list (values_of config.now) first count) }
{
    let seeds = seeds_from(alloc, first, count)?;
    let runs = run_seeds(rt, alloc, config, seeds, workers, gate)?;
    let assays = all_ended(alloc, runs)?;
    Ok(Assays::from_vec(assays))
}

/// So many seeds, from the first one on.
fn seeds_from(alloc: Global, first: u64, count: u32) -> Result<Vec<u64>, AllocError>
    requires first { first ≤ 9223372036854775744 }
    requires count { count ≤ 64 }
    ensures seeds { IfOk result (λ seeds. seeds.items ≡ range_with_len first count) }
    ensures small { IfOk result (λ seeds. All (λ seed. seed ≤ 9223372036854775807) seeds.items) }
{
    (first..first + u64::from(count)).collect(alloc)
}

/// By as many threads as there are seeds, where they can be made.
fn run_seeds<R: Threads + Wait + Sync, G: Gate + Sync>(
    rt: &R,
    alloc: Global,
    config: &Config,
    seeds: Vec<u64>,
    workers: u32,
    gate: &G,
) -> Result<Vec<Result<Assay, Memory>>, AllocError>
    requires seeds { All (λ seed. seed ≤ 9223372036854775807) seeds.items }
    requires workers { (1 ≤ workers) × (workers ≤ 64) }
    ensures count { IfOk result (λ runs. length runs.items ≡ length seeds.items) }
    ensures each { IfOk result (λ runs. (place : ℕ) (seed : _) (run : _)
        → place < length seeds.items → IfOk (slice_index_or runs.items place run) (λ assay. assay
        ≡ assay_of_seed (values_of config.now) (slice_index_or seeds.items place seed))) }
{
    thread::map_vec(
        rt,
        seeds,
        &|seed: u64| -> Result<Assay, Memory>
            requires { (seed ≤ 9223372036854775807) × (1 ≤ workers) × (workers ≤ 64) }
            ensures { IfOk result
                (λ assay. assay ≡ assay_of_seed (values_of config.entry.now) seed) }
        { run_seed(rt, alloc, config, seed, workers, gate) },
    )
}

/// All runs came to their end, or memory ran out in one of them.
fn all_ended(alloc: Global, runs: Vec<Result<Assay, Memory>>) -> Result<Vec<Assay>, Memory>
    ensures { IfOk result (λ assays. runs.items ≡ map (λ assay. Ok assay) assays.items) }
{
    let mut assays = Vec::with_capacity(alloc, runs.len())?;
    for run in runs {
        assays.push(run?)?;
    }
    Ok(assays)
}
