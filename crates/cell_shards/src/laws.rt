// What the definitions mean for a world that is cut into shards.
ghost use Rattle.std.specs.Prelude.{◌≡◌, ℕ, ◌+◌, ◌++◌, ◌<◌, ◌≤◌, List, Option, length};
ghost use Rattle.organism.specs.OrganismState.{OrganismState};
ghost use Rattle.organism.specs.Lived.{OrganismLife};
ghost use Rattle.cell_shards.specs.CellLives.{RoundNumbers, births_from, deaths_from, part_from, shard_lives_of};
ghost use Rattle.cell_shards.specs.Shards.{IsInShard, bounds_of};

/// The shards of some workers part the cells: the first begins at 0, each begins where the one
/// before it ends, the last ends at the number of cells, and each cell is in exactly one.
pub fn shards_part_the_cells()
    ensures begin { (cells workers : ℕ) → 1 ≤ workers → (bounds_of cells workers 0).0 ≡ 0 }
    ensures next { (cells workers shard : ℕ)
        → (bounds_of cells workers (shard + 1)).0 ≡ (bounds_of cells workers shard).1 }
    ensures rising { (cells workers shard : ℕ) → 1 ≤ workers
        → (bounds_of cells workers shard).0 ≤ (bounds_of cells workers shard).1 }
    ensures end { (cells workers last : ℕ) → workers ≡ last + 1
        → (bounds_of cells workers last).1 ≡ cells }
    ensures one { (cells workers cell : ℕ) → 1 ≤ workers → cell < cells
        → (shard : ℕ) × (shard < workers) × IsInShard cells workers shard cell }
    ensures only { (cells workers shard other cell : ℕ) → 1 ≤ workers
        → IsInShard cells workers shard cell
        → IsInShard cells workers other cell
        → shard ≡ other }
{}

/// However cells are cut into two parts that lie side by side, their lives, births and deaths are
/// those of the first part and then those of the second.
pub fn parts_live_as_one()
    ensures lives { (round : RoundNumbers) (first : ℕ) (cells others : List (Option OrganismState))
        (slices more : List ℕ) → length slices ≡ length cells
        → shard_lives_of round (part_from first (cells ++ others) (slices ++ more))
        ≡ shard_lives_of round (part_from first cells slices)
        ++ shard_lives_of round (part_from (first + length cells) others more) }
    ensures births { (first : ℕ) (lives more : List OrganismLife) → births_from first (lives ++ more)
        ≡ births_from first lives ++ births_from (first + length lives) more }
    ensures deaths { (first : ℕ) (lives more : List OrganismLife)
        → deaths_from first (lives ++ more)
        ≡ deaths_from first lives ++ deaths_from (first + length lives) more }
    ensures count { (round : RoundNumbers) (first : ℕ) (cells : List (Option OrganismState))
        (slices : List ℕ) → length (shard_lives_of round (part_from first cells slices))
        ≡ length cells }
{}
