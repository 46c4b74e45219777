ghost use Rattle.std.specs.Prelude.{◌≤◌};
ghost use Rattle.genome.specs.Lengths.{shortest_genome, longest_genome};

/// The least and the greatest length of a child, in letters, both within a genome's 8 to 8,192.
#[derive(Clone, Copy, Debug)]
pub struct Limits {
    pub least: u32,
    pub greatest: u32,
    ghost not_too_short: { shortest_genome ≤ least },
    ghost in_order: { least ≤ greatest },
    ghost not_too_long: { greatest ≤ longest_genome },
}
