// A genome: a list of letters within two lengths.
ghost use Rattle.std.specs.Prelude.{◌≡◌, ◌≢◌, ◌<◌, ◌≤◌, ◌↔◌, ◌⊎◌, length, IfOk, IfErr, Ok, Err};
ghost use Rattle.genome.specs.Lengths.{shortest_genome, longest_genome};

use crate::stop::GenomeStop;
use avida_port::Memory;
use instruction_set::Letter;
use std::alloc::Global;

/// The least length of a genome, in letters.
pub const LEAST_LENGTH: u32 = 8;

/// The greatest length of a genome, in letters.
pub const GREATEST_LENGTH: u32 = 8192;

/// A genome: 8 to 8,192 letters.
#[derive(Debug, Drop, PartialEq, Eq, PartialOrd, Ord, Hash)]
pub struct Genome {
    letters: Vec<Letter>,
    ghost least: { shortest_genome ≤ length letters.items },
    ghost greatest: { length letters.items ≤ longest_genome },
}

impl Genome {
    ghost use Rattle.genome.specs.Genome.{IsGenome, letters, genome_of};

    /// The genome of these letters. It rejects exactly the lengths that no genome has, before it
    /// allocates; else it gives a genome, unless memory runs out.
    pub fn from_letters(alloc: Global, from: &[Letter]) -> Result<Genome, GenomeStop>
        ensures ok { IfOk result (λ genome. letters genome ≡ from.now) }
        ensures too_short { (length from.now < shortest_genome) ↔
            (result ≡ Err (GenomeStop.TooShort (length from.now))) }
        ensures too_long { (longest_genome < length from.now) ↔
            (result ≡ Err (GenomeStop.TooLong (length from.now))) }
        ensures refused { IfErr result (λ s. s ≢ GenomeStop.Memory → genome_of from.now ≡ Err s) }
    {
        check_length(from.len())?;
        match Vec::from_slice(alloc, from) {
            Ok(letters) => Ok(Genome { letters }),
            Err(_) => Err(GenomeStop::Memory),
        }
    }

    /// The letters, in order.
    pub fn letters(&self) -> &[Letter]
        ensures letters { result.now ≡ letters self.now }
        ensures is_genome { IsGenome result.now }
    {
        self.letters.as_slice()
    }

    /// How many letters there are.
    pub fn len(&self) -> u32
        ensures length { result ≡ length (letters self.now) }
        ensures least { shortest_genome ≤ result }
        ensures greatest { result ≤ longest_genome }
    {
        self.letters.len() as u32
    }

    /// An equal genome, or `Memory` when memory runs out.
    pub fn copy(&self, alloc: Global) -> Result<Genome, Memory>
        ensures { IfOk result (λ genome. letters genome ≡ letters self.now) }
    {
        match Vec::from_slice(alloc, self.letters.as_slice()) {
            Ok(letters) => Ok(Genome { letters }),
            Err(_) => Err(Memory),
        }
    }

    /// The letters, in order, as a vector that holds them where they are. It takes no memory.
    pub fn into_vec(self) -> Vec<Letter>
        ensures letters { result.items ≡ letters self }
    {
        self.letters
    }

    /// The genome of a vector's letters, which stay where they are. It takes no memory.
    pub fn from_vec(from: Vec<Letter>) -> Result<Genome, GenomeStop>
        ensures ok { IfOk result (λ genome. letters genome ≡ from.items) }
        ensures genome { IfOk result (λ genome. genome_of from.items ≡ Ok (letters genome)) }
        ensures too_short { (length from.items < shortest_genome) ↔
            (result ≡ Err (GenomeStop.TooShort (length from.items))) }
        ensures too_long { (longest_genome < length from.items) ↔
            (result ≡ Err (GenomeStop.TooLong (length from.items))) }
        ensures refused { IfErr result (λ stop. genome_of from.items ≡ Err stop) }
    {
        check_length(from.len())?;
        Ok(Genome { letters: from })
    }
}

/// Refuses a length that no genome has.
pub(crate) fn check_length(len: usize) -> Result<(), GenomeStop>
    ensures too_short { (len < shortest_genome) ↔ (result ≡ Err (GenomeStop.TooShort len)) }
    ensures too_long { (longest_genome < len) ↔ (result ≡ Err (GenomeStop.TooLong len)) }
    ensures refused { IfErr result (λ s. s ≡ GenomeStop.TooShort len ⊎ s ≡ GenomeStop.TooLong len) }
{
    if len < LEAST_LENGTH as usize {
        Err(GenomeStop::TooShort { len: len as u64 })
    } else if (GREATEST_LENGTH as usize) < len {
        Err(GenomeStop::TooLong { len: len as u64 })
    } else {
        Ok(())
    }
}
