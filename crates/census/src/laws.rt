// What holds of every list of genotypes (docs/WORLD.md, "Statistics").
ghost use Rattle.std.specs.Prelude.{◌≡◌, List};
ghost use Rattle.census.specs.Counts.{GenotypeCount, dominant_among, HaveSameMembers};

use instruction_set::laws::one_index;

/// Which genotype is dominant depends on no order among them.
pub fn dominance_knows_no_order()
    ensures { (genotypes others : List GenotypeCount)
        → HaveSameMembers genotypes others
        → dominant_among genotypes ≡ dominant_among others }
{
    one_index();
}
