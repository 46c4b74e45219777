// What the numbers of genomes mean.
ghost use Rattle.std.specs.Prelude.{◌≡◌, ◌↔◌, ◌+◌, ◌++◌, ◌∷◌, [], List, Some, if◌then◌else◌, length, nat_lt, slice_get, ℕ};
ghost use Rattle.std.specs.List.Sorted.{IsPermutation};
ghost use mathlib.Core.List.{IsPrefix};
ghost use Rattle.instruction_set.specs.declared.letter.Letter.{Letter};
ghost use Rattle.genome.specs.Genome.{different_of};
ghost use Rattle.genotype_bank.specs.BankHistory.{HasEachOnce, genomes_of, genotypes_of, with_call, with_genome, MakesCall, NumbersAgree, SeatValue};
ghost use Rattle.genotype_bank.specs.declared.view.Call.{Call};
ghost use Rattle.genotype_bank.specs.declared.view.Entry.{Entry};

use instruction_set::laws::one_index;

/// Numbers that two seats of one bank were given are equal exactly where the genomes are.
pub fn numbers_agree()
    ensures { NumbersAgree }
{
    one_index();
}

/// In a list that has each genome once, as that of a bank has, two numbers are equal exactly where
/// the genomes are.
pub fn each_genome_has_one_number()
    ensures { (bank genomes : List (List Letter)) (number other : ℕ) (genome twin : List Letter) →
        HasEachOnce bank genomes →
        slice_get bank number ≡ Some genome →
        slice_get bank other ≡ Some twin →
        (number ≡ other) ↔ (genome ≡ twin) }
{
    one_index();
}

/// A genome that is new gets the next number, and all other numbers stay.
pub fn calls_number_genotypes()
    ensures call { (history : List Entry) (last : Entry) →
        genotypes_of (history ++ last ∷ []) ≡ with_call (genotypes_of history) last.call }
    ensures stay { (early history : List Entry) →
        IsPrefix early history → IsPrefix (genotypes_of early) (genotypes_of history) }
    ensures fronts { (first genomes : List (List Letter)) →
        IsPrefix first genomes → IsPrefix (different_of first) (different_of genomes) }
    ensures seen { (before after : SeatValue) (call : Call) →
        MakesCall before after call → IsPrefix before.seen after.seen }
    ensures count { (genotypes : List (List Letter)) (genome : List Letter) (number : ℕ) →
        slice_get (with_genome genotypes genome) number ≡ Some genome →
        length (with_genome genotypes genome)
        ≡ (if nat_lt number (length genotypes) then length genotypes else number + 1) }
{
    one_index();
}

/// Each genome that was interned has exactly one number, and no other genome has one. The calls may
/// be told in any order, as those of seats that were joined.
pub fn genotypes_are_what_was_interned()
    ensures each { (genomes : List (List Letter)) → HasEachOnce (different_of genomes) genomes }
    ensures calls { (history calls : List Entry) → IsPermutation history calls →
        HasEachOnce (genotypes_of history) (genomes_of calls) }
    ensures one_more { (genotypes genomes : List (List Letter)) (genome : List Letter) →
        HasEachOnce genotypes genomes →
        HasEachOnce (with_genome genotypes genome) (genomes ++ genome ∷ []) }
{
    one_index();
}
