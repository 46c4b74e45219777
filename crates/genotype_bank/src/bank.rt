// The bank.
ghost use Rattle.std.specs.Prelude.{◌≡◌, ◌+◌, ◌-◌, ◌<◌, ◌^◌, ◌≤◌, ◌++◌, [], IfOk, Some, is_ok, map, slice_get};
ghost use mathlib.Core.List.{IsPrefix};
ghost use Rattle.std.specs.List.Sorted.{IsPermutation};
ghost use Rattle.genome.specs.Genome.{letters};
ghost use Rattle.genotype_bank.specs.BankHistory.{call_of, calls_under, genotypes_of, with_call, MakesCall, all_shares, own_calls_of};
ghost use Rattle.genotype_bank.specs.BankTable.{letters_in};

use crate::catalog::Catalog;
use crate::handle::Handle;
use crate::packed_genome::PackedGenome;
use crate::rule::{BankTable, Recall, Shares};
use crate::seat::Seat;
use atomic_table::{Refused, Table};
use avida_port::{Items, Memory};
use genome::Genome;
use indexmap::IndexSet;
use instruction_set::laws::one_index;
use std::alloc::Global;
use std::marker::Model;
use std::sync::Wait;

/// A list of genomes.
pub type Genomes = Items<Genome>;

/// The genotypes of a world: each different genome once, with its number.
///
/// Threads share it by reference, each with a seat of its own.
#[derive(Drop)]
pub struct Bank {
    pub(crate) table: BankTable,
}

impl Model for Bank {
    ghost use Rattle.std.specs.Prelude.{◌≡◌};
    ghost use Rattle.atomic_table.specs.Seated.{TableId};

    ghost Value = { TableId };

    ghost view = { λ b. b.table.shared.table_id };

    ghost invariant = { λ b.
        (b.table.shared.table_id.words ≡ 2) × (b.table.shared.table_id.slots ≡ 1) };
}

impl Bank {
    /// An empty bank, and a whole seat that has seen nothing.
    pub fn start(alloc: Global) -> Result<(Bank, Seat), Memory>
        ensures { IfOk result (λ made. made.1
            ≡ record { bank = made.0; share = all_shares; numbers = []; seen = [] }) }
    {
        let genomes: IndexSet<PackedGenome> = IndexSet::new(alloc);
        let catalog = Catalog {
            genomes,
            last: None,
        };
        let mut slots = Vec::with_capacity(alloc, 1)?;
        slots.push_reserved(Some(catalog));
        match Table::new(alloc, &[0, 0], slots, &()) {
            Ok((table, pass)) => Ok((Bank { table }, Seat { pass })),
            Err(Refused { slots: _ }) => Err(Memory),
        }
    }

    /// A new seat with a share of 1, which the given seat gives. It has seen what that seat has,
    /// and has made no calls. It takes no memory.
    pub fn split(&self, seat: &mut Seat) -> Seat
        requires bank { seat.old.bank ≡ self.now }
        requires share { 2 ≤ seat.old.share }
        ensures kept { seat.new ≡ record {
          bank = seat.old.bank;
          share = seat.old.share - 1;
          numbers = seat.old.numbers;
          seen = seat.old.seen;
        } }
        ensures new { result ≡ record {
          bank = seat.old.bank;
          share = 1;
          numbers = [];
          seen = seat.old.seen;
        } }
    {
        let pass = self.table.shared.split_seat::<Shares>(&mut seat.pass);
        Seat { pass }
    }

    /// Two seats as one, which has seen what both had. It takes no memory.
    pub fn join(&self, seat: Seat, other: Seat) -> Seat
        requires bank { seat.bank ≡ self.now }
        requires other { other.bank ≡ self.now }
        ensures bank { result.bank ≡ seat.bank }
        ensures share { result.share ≡ seat.share + other.share }
        ensures numbers { result.numbers ≡ seat.numbers ++ other.numbers }
        ensures seen { IsPrefix seat.seen result.seen × IsPrefix other.seen result.seen }
        ensures once { IsPermutation (own_calls_of seat ++ own_calls_of other)
            (own_calls_of result) }
        ensures own { (calls_under seat.numbers result.seen ≡ own_calls_of seat)
            × (calls_under other.numbers result.seen ≡ own_calls_of other) }
    {
        let Seat { mut pass } = seat;
        let Seat { pass: theirs } = other;
        self.table.shared.join_seat::<Shares>(&mut pass, theirs);
        self.table.shared.load::<Recall>(&mut pass, 0);
        Seat { pass }
    }

    /// Interns a genome: its number is its place among the different genomes, in order of first
    /// interning. It may wait for the turns of other seats. If memory runs out, the call stands in
    /// the history as refused, and adds no genome.
    pub fn intern<R: Wait>(
        &self,
        rt: &R,
        alloc: Global,
        seat: &mut Seat,
        genome: Genome,
    ) -> Result<Handle, Memory>
        requires { seat.old.bank ≡ self.now }
        ensures kept { (seat.new.bank ≡ seat.old.bank) × (seat.new.share ≡ seat.old.share) }
        ensures call { MakesCall seat.old seat.new (call_of (is_ok result) (letters genome)) }
        ensures genome { IfOk result (λ handle. letters handle.genome.value ≡ letters genome) }
        ensures number { IfOk result (λ handle. slice_get (genotypes_of seat.new.seen) handle.number
            ≡ Some (letters genome)) }
        ensures small { IfOk result (λ handle. handle.number < 2 ^ 63) }
        ensures alone { seat.old.share ≡ all_shares → genotypes_of seat.new.seen
            ≡ with_call (genotypes_of seat.old.seen) (call_of (is_ok result) (letters genome)) }
    {
        one_index();
        self.wait_for_others(rt);
        let ticket = self.draw(&mut seat.pass);
        let mut catalog = self.wait_for_turn(rt, &mut seat.pass, ticket);
        let result = catalog.serve(alloc, genome);
        self.end_turn(&mut seat.pass, catalog);
        result
    }

    /// All genomes, in the order of their numbers. If memory runs out, bank and seat are gone.
    pub fn close(self, alloc: Global, seat: Seat) -> Result<Genomes, Memory>
        requires bank { seat.bank ≡ self }
        requires whole { seat.share ≡ all_shares }
        ensures all { IfOk result (λ genomes. map letters genomes ≡ genotypes_of seat.seen) }
        ensures own { own_calls_of seat ≡ seat.seen }
    {
        let Bank { table } = self;
        let Seat { pass } = seat;
        let mut closed = table.close_with(pass);
        let catalog = closed.take(0);
        closed.free();
        let Catalog { genomes, last: _ } = catalog.unwrap();
        unpack_all(alloc, &genomes)
    }
}

/// The genomes that were packed, in their order.
fn unpack_all(alloc: Global, kept: &IndexSet<PackedGenome>) -> Result<Genomes, Memory>
    ensures { IfOk result (λ genomes. map letters genomes ≡ letters_in kept.now.keys) }
{
    let mut genomes = Vec::with_capacity(alloc, kept.len())?;
    for genome in kept {
        genomes.push(genome.unpack(alloc)?)?;
    }
    Ok(Genomes::from_vec(genomes))
}
