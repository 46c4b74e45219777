// The numbers of genotypes.
ghost use Rattle.std.specs.Prelude.{◌≡◌, ◌+◌, ◌<◌, ◌^◌, [], All, Some, IfOk, OnErr, OnOk, fold, length, slice_get, nat_lt, if◌then◌else◌};
ghost use Rattle.world_core.specs.Prelude.{letters, with_genome};
ghost use Rattle.world_core.specs.Population.{AreDifferent};

use avida_port::Memory;
use cell_shards::Delivered;
use genome::Genome;
use genotype_bank::laws::{calls_number_genotypes, numbers_agree};
use genotype_bank::{Bank, Handle, Seat};
use std::alloc::Global;
use std::marker::Model;
use std::sync::Wait;

/// A bank with one seat, which is whole. Contracts see the genomes of the bank, each at the place
/// that is its number.
#[derive(Drop)]
pub(crate) struct Genotypes {
    pub(crate) bank: Bank,
    pub(crate) seat: Seat,
    pub(crate) len: u64,
}

impl Model for Genotypes {
    ghost use Rattle.std.specs.Prelude.{List};
    ghost use Rattle.instruction_set.specs.declared.letter.Letter.{Letter};

    ghost Value = { List (List Letter) };

    ghost use Rattle.std.specs.Prelude.{◌≡◌, length};
    ghost use Rattle.genotype_bank.specs.BankHistory.{genotypes_of, all_shares};

    ghost view = { λ g. genotypes_of g.seat.seen };

    ghost invariant = { λ g. (g.seat.bank ≡ g.bank) × (g.seat.share ≡ all_shares)
        × (g.len ≡ length (genotypes_of g.seat.seen)) };
}

impl Genotypes {
    /// Nothing was interned yet.
    pub(crate) fn none(alloc: Global) -> Result<Genotypes, Memory>
        ensures { IfOk result (λ genotypes. genotypes ≡ []) }
    {
        let (bank, seat) = Bank::start(alloc)?;
        Ok(Genotypes { bank, seat, len: 0 })
    }

    /// Interns a genome. It may wait, as each call of a bank, but nobody else has a seat.
    pub(crate) fn intern<R: Wait>(
        &mut self,
        rt: &R,
        alloc: Global,
        genome: Genome,
    ) -> Result<Handle, Memory>
        ensures ok { OnOk result (self.new ≡ with_genome self.old (letters genome)) }
        ensures err { OnErr result (self.new ≡ self.old) }
        ensures genome { IfOk result (λ handle. letters handle.genome.value ≡ letters genome) }
        ensures number { IfOk result
            (λ handle. slice_get self.new handle.number ≡ Some (letters genome)) }
        ensures different { AreDifferent self.new }
    {
        calls_number_genotypes();
        numbers_agree();
        let handle = self.bank.intern(rt, alloc, &mut self.seat, genome)?;
        self.len = len_with(self.len, handle.number);
        Ok(handle)
    }

    /// How many genotypes have a number.
    pub(crate) fn len(&self) -> u64
        ensures { result ≡ length self.now }
    {
        self.len
    }
}

/// How many genotypes have a number once these newborns were given theirs, from `len` on.
pub(crate) fn len_after(len: u64, births: &[Delivered]) -> u64
    requires { All (λ birth. birth.handle.number < 2 ^ 63) births.now }
    ensures { result ≡ fold (λ n birth.
        if nat_lt birth.handle.number n then n else birth.handle.number + 1) len births.now }
{
    let mut most = len;
    for birth in births {
        most = len_with(most, birth.handle.number);
    }
    most
}

/// How many genotypes have a number once this one was given: it is one of the `len` so far, or the
/// next.
fn len_with(len: u64, number: u64) -> u64
    requires { number < 2 ^ 63 }
    ensures { result ≡ (if nat_lt number len then len else number + 1) }
{
    if number < len { len } else { number + 1 }
}
