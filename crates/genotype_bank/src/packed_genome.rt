// A genome as a bank keeps it.
ghost use Rattle.std.specs.Prelude.{◌≡◌};
ghost use Rattle.genotype_bank.specs.Packing.{packed, unpacked};

use crate::packing::{letters_in_words, words_of};
use avida_port::Memory;
use genome::Genome;
use std::alloc::Global;

/// A genome in less memory: thirteen letters to a word. Each genome has one form in words, so equal
/// words are equal letters.
#[derive(Drop, PartialEq, Eq, Hash)]
pub(crate) struct PackedGenome {
    words: Vec<u64>,
    ghost one_form: { packed (unpacked words.items) ≡ words.items },
}

impl PackedGenome {
    ghost use Rattle.std.specs.Prelude.{IfOk};
    ghost use Rattle.genome.specs.Genome.{letters};
    ghost use Rattle.genotype_bank.specs.BankTable.{letters_of};

    /// A genome, packed.
    pub(crate) fn pack(alloc: Global, genome: &Genome) -> Result<PackedGenome, Memory>
        ensures { IfOk result (λ made. letters_of made ≡ letters genome.now) }
    {
        let words = words_of(alloc, genome.letters())?;
        Ok(PackedGenome { words })
    }

    /// The genome itself again.
    pub(crate) fn unpack(&self, alloc: Global) -> Result<Genome, Memory>
        ensures { IfOk result (λ genome. letters genome ≡ letters_of self.now) }
    {
        let letters = letters_in_words(alloc, &self.words)?;
        Genome::from_letters(alloc, &letters).map_err(|_| Memory)
    }
}
