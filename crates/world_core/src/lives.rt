// The lives of an update, all from one start.
ghost use Rattle.std.specs.Prelude.{◌≡◌, ◌<◌, ◌≤◌, ◌^◌, ℕ, All, IfOk, length, map, sum, slice_index_or};
ghost use Rattle.world_core.specs.Prelude.{round_numbers, CanRenew, values_of};
ghost use Rattle.merit_slices.specs.Slices.{slices_of};
ghost use Rattle.world_core.specs.Endings.{round_of};
ghost use Rattle.world_core.specs.Population.{CanCountChange, CountsChange, IsRenewed, merit_or_zero};

use crate::pairs::both;
use crate::settings::settings_at;
use cell_shards::{Round, Standing};
use census::Census;
use merit_slices::share;
use random_streams::CELLS;
use std::alloc::{AllocError, Global};
use world_config::Config;

/// What all lives of an update share.
pub(crate) fn round_at(config: &Config, update: u32) -> Round
    ensures { round_numbers result ≡ round_of (values_of config.now) update }
{
    Round {
        seed: config.seed,
        update,
        settings: settings_at(config, update),
    }
}

/// The steps of each cell, by the merits as the update begins.
pub(crate) fn slices_by(
    alloc: Global,
    config: &Config,
    standings: &[Option<Standing>],
) -> Result<Vec<u64>, AllocError>
    requires cells { length standings.now ≤ CELLS }
    requires merits { All (λ merit. merit ≤ 2 ^ 38) (map merit_or_zero standings.now) }
    ensures slices { IfOk result (λ slices. slices.items
        ≡ slices_of (map merit_or_zero standings.now) config.now.average_slices) }
    ensures few { IfOk result
        (λ slices. (cell : ℕ) → slice_index_or slices.items cell 0 < 2 ^ 27) }
    ensures total { IfOk result (λ slices. sum slices.items ≤ 65536000) }
    ensures length { IfOk result (λ slices. length slices.items ≡ length standings.now) }
{
    let slices = vec![in alloc; 0; standings.len()];
    let (merits, mut slices) = both(merits_of(alloc, standings), slices)?;
    share(&merits, config.average_slices, &mut slices);
    Ok(slices)
}

/// The merit in each cell, 0 where nobody stands.
fn merits_of(alloc: Global, standings: &[Option<Standing>]) -> Result<Vec<u64>, AllocError>
    ensures { IfOk result (λ merits. merits.items ≡ map merit_or_zero standings.now) }
{
    let mut merits = Vec::with_capacity(alloc, standings.len())?;
    for standing in standings {
        merits.push(merit_in(*standing))?;
    }
    Ok(merits)
}

fn merit_in(standing: Option<Standing>) -> u64
    ensures { result ≡ merit_or_zero standing }
{
    match standing {
        Some(one) => one.merit,
        None => 0,
    }
}

/// Counts what a life changed in its cell: whoever died goes, and whoever bore has another merit
/// and credited set than before.
#[inline(always)]
pub(crate) fn count_change(
    census: &mut Census,
    key: u64,
    was: Option<Standing>,
    now: Option<Standing>,
)
    requires { CanCountChange census.old key was now }
    ensures { CountsChange census.old census.new key was now }
{
    match (was, now) {
        (Some(was), Some(now)) => renew(census, was, now),
        (Some(was), None) => census.remove(key, was.merit, was.credited),
        (None, _) => {}
    }
}

/// An organism counts with the merit and the credited set that it has now.
fn renew(census: &mut Census, was: Standing, now: Standing)
    requires counted { CanRenew census.old was.merit was.credited (2 ^ 38) }
    requires merit { now.merit ≤ 2 ^ 38 }
    ensures { IsRenewed census.old census.new was now }
{
    if now.merit != was.merit || now.credited != was.credited {
        census.renew(was.merit, was.credited, now.merit, now.credited);
    }
}
