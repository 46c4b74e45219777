// What goes from turn to turn: the different genomes.
ghost use Rattle.std.specs.Prelude.{◌≡◌, ◌<◌, ◌^◌, IfOk, MatchResult, Some, is_ok, slice_get};
ghost use Rattle.genome.specs.Genome.{letters};
ghost use Rattle.genotype_bank.specs.BankHistory.{with_genome};
ghost use Rattle.genotype_bank.specs.BankTable.{letters_in, letters_of};

use crate::handle::Handle;
use crate::packed_genome::PackedGenome;
use avida_port::Memory;
use genome::Genome;
use indexmap::IndexSet;
use instruction_set::laws::one_index;
use std::alloc::Global;
use std::sync::Arc;

/// The different genomes in order of first interning, and what the last call came to: the number
/// that it gave, or none where memory ran out.
#[derive(Drop)]
pub(crate) struct Catalog {
    pub(crate) genomes: IndexSet<PackedGenome>,
    pub(crate) last: Option<usize>,
}

impl Catalog {
    ghost use Rattle.genotype_bank.specs.BankHistory.{with_call, call_of};
    ghost use Rattle.genotype_bank.specs.BankTable.{genomes_in, last_call};

    /// Serves one call: a genome that is new stands behind the others.
    pub(crate) fn serve(&mut self, alloc: Global, genome: Genome) -> Result<Handle, Memory>
        ensures call { last_call self.new ≡ call_of (is_ok result) (letters genome) }
        ensures genomes { genomes_in self.new
            ≡ with_call (genomes_in self.old) (last_call self.new) }
        ensures genome { IfOk result (λ handle. letters handle.genome.value ≡ letters genome) }
        ensures number { IfOk result (λ handle. slice_get (genomes_in self.new) handle.number
            ≡ Some (letters genome)) }
        ensures small { IfOk result (λ handle. handle.number < 2 ^ 63) }
    {
        self.last = None;
        let packed = PackedGenome::pack(alloc, &genome)?;
        let shared = Arc::new(alloc, genome)?;
        let number = place(&mut self.genomes, packed)?;
        self.last = Some(number as usize);
        Ok(Handle {
            number,
            genome: shared,
        })
    }
}

/// The number of a genome, which is new or known. If memory runs out, nothing changes.
fn place(genomes: &mut IndexSet<PackedGenome>, genome: PackedGenome) -> Result<u64, Memory>
    ensures placed { MatchResult result
        (λ _. letters_in genomes.new.keys
        ≡ with_genome (letters_in genomes.old.keys) (letters_of genome))
        (λ _. letters_in genomes.new.keys ≡ letters_in genomes.old.keys) }
    ensures number { IfOk result
        (λ number. slice_get (letters_in genomes.new.keys) number ≡ Some (letters_of genome)) }
    ensures small { IfOk result (λ number. number < 2 ^ 63) }
{
    one_index();
    let (index, _) = genomes.insert_full(genome)?;
    let _after = genomes.len();
    Ok(index as u64)
}
