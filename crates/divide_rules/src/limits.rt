// What the rules of a divide compare with.
ghost use Rattle.std.specs.Prelude.{◌≤◌};
ghost use Rattle.genome.specs.Lengths.{shortest_genome, longest_genome};

/// What the configuration sets for divides: the lengths that parent and child may have, the
/// percentage of places that must be executed and copied, and whether an allocation is needed.
#[derive(Clone, Copy, Debug, PartialEq, Eq)]
pub struct DivideRules {
    pub least: u32,
    pub greatest: u32,
    pub executed_percent: u32,
    pub copied_percent: u32,
    pub need_alloc: bool,
    ghost long_enough: { shortest_genome ≤ least },
    ghost ordered: { least ≤ greatest },
    ghost short_enough: { greatest ≤ longest_genome },
    ghost executed_is_asked: { 1 ≤ executed_percent },
    ghost executed_is_percent: { executed_percent ≤ 100 },
    ghost copied_is_asked: { 1 ≤ copied_percent },
    ghost copied_is_percent: { copied_percent ≤ 100 },
}
