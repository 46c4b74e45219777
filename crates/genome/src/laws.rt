// The limits that the code and the definitions share, and equality by letters.
ghost use Rattle.std.specs.Prelude.{◌≡◌};
ghost use Rattle.instruction_set.specs.Letter.{same_letters};
ghost use Rattle.genome.specs.contracts.genome.GenomePartialEq.TheImpl.{ghosts};
ghost use Rattle.genome.specs.declared.genome.Genome.{Genome};
ghost use Rattle.genome.specs.Genome.{letters};
ghost use Rattle.genome.specs.Lengths.{shortest_genome, longest_genome};

use crate::{GREATEST_LENGTH, LEAST_LENGTH};

/// The limits of the code are the written ones.
pub fn limits()
    ensures least { LEAST_LENGTH ≡ shortest_genome }
    ensures greatest { GREATEST_LENGTH ≡ longest_genome }
{}

/// Two genomes are equal exactly where their letters are.
pub fn equal_by_letters()
    ensures { (one other : Genome)
        → ghosts.eq one other ≡ same_letters (letters one) (letters other) }
{
    instruction_set::laws::one_index();
}
