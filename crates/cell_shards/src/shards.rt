// How a row of cells, or the work on them, is cut into shards.
ghost use Rattle.std.specs.Prelude.{◌≡◌, ◌<◌, ◌≤◌, ◌^◌};
ghost use Rattle.cell_shards.specs.Shards.{bounds_of, first_cell};

/// The cells of a shard among `cells`, from the first number up to, and without, the second. A
/// world cuts the load of its cells in the same way.
pub fn bounds(cells: u32, workers: u32, shard: u32) -> (u32, u32)
    requires cells { (1 ≤ cells) × (cells < 2 ^ 26) }
    requires workers { (1 ≤ workers) × (workers ≤ 64) }
    requires shard { shard < workers }
    ensures { result ≡ bounds_of cells workers shard }
{
    (
        first_cell(cells, workers, shard),
        first_cell(cells, workers, shard + 1),
    )
}

/// The first cell of a shard; behind the last shard, the number of cells.
fn first_cell(cells: u32, workers: u32, shard: u32) -> u32
    requires cells { cells < 2 ^ 26 }
    requires workers { (1 ≤ workers) × (workers ≤ 64) }
    requires shard { shard ≤ 64 }
    ensures { result ≡ first_cell cells workers shard }
{
    cells * shard / workers
}
