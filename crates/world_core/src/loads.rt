// How much work the lives of an update are, by which the cells are cut into shards.
ghost use Rattle.std.specs.Prelude.{◌≡◌, ◌+◌, ◌<◌, ◌≤◌, ◌^◌, All, IfOk, length, map, sum, take};
ghost use Rattle.world_core.specs.Sharding.{load_of};

use random_streams::CELLS;
use std::alloc::{AllocError, Global};

/// A cell, and the load of all cells before it.
#[derive(Clone, Copy, Debug)]
pub(crate) struct Start {
    pub(crate) cell: usize,
    pub(crate) before: u64,
}

/// How much work each cell is, in steps.
pub(crate) fn loads_of(alloc: Global, slices: &[u64]) -> Result<Vec<u64>, AllocError>
    requires cells { length slices.now ≤ CELLS }
    requires few { All (λ steps. steps < 2 ^ 27) slices.now }
    requires total { sum slices.now ≤ 65536000 }
    ensures loads { IfOk result (λ loads. loads.items ≡ map load_of slices.now) }
    ensures total { IfOk result (λ loads. sum loads.items < 2 ^ 26) }
{
    let mut loads = Vec::with_capacity(alloc, slices.len())?;
    for steps in slices {
        loads.push_reserved(load(*steps));
    }
    Ok(loads)
}

fn load(steps: u64) -> u64
    requires { steps < 2 ^ 27 }
    ensures { result ≡ load_of steps }
{
    if steps > 0 { steps + 16 } else { 0 }
}

/// Where the shard begins that has the load from `share` on: at the last cell before which there is
/// no more than that.
pub(crate) fn start_of(loads: &[u64], all: u64, share: u64) -> Start
    requires all { all ≡ sum loads.now }
    ensures within { result.cell ≤ length loads.now }
    ensures before { result.before ≡ sum (take result.cell loads.now) }
    ensures from { result.before ≤ share }
    ensures to { result.cell < length loads.now
        → share < sum (take (result.cell + 1) loads.now) }
{
    let mut cell = loads.len();
    let mut before = all;
    while before > share {
        cell -= 1;
        before -= loads[cell];
    }
    Start { cell, before }
}
