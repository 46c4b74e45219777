// The genomes of newborns are interned, one after another.
ghost use Rattle.std.specs.Prelude.{◌≡◌, IfOk, OnOk, map};
ghost use Rattle.genotype_bank.specs.BankHistory.{MakesCall};
ghost use Rattle.organism.specs.Newborns.{newborn_value};
ghost use Rattle.cell_shards.specs.CellLives.{born_in};
ghost use Rattle.cell_shards.specs.Finishing.{AreDelivered, IsNumbered, birth_of, call_for};

use crate::delivered::{Delivered, Deliveries};
use avida_port::Memory;
use genotype_bank::laws::calls_number_genotypes;
use genotype_bank::{Bank, Seat};
use organism::{Births, Newborn};
use std::alloc::Global;
use std::sync::{Arc, Wait};

/// The newborns of a cell, behind those of the cells before it, with the handles of their genomes,
/// which the seat interns in this order.
#[inline(always)]
pub(crate) fn deliver<R: Wait>(
    rt: &R,
    alloc: Global,
    bank: &Bank,
    seat: &mut Seat,
    cell: u32,
    newborns: Births,
    births: &mut Deliveries,
) -> Result<(), Memory>
    requires { seat.old.bank ≡ bank.now }
    ensures { OnOk result (AreDelivered cell (map newborn_value newborns)
        seat.old seat.new births.old births.new) }
{
    if newborns.len() == 0 {
        return Ok(());
    }
    deliver_each(rt, alloc, bank, seat, cell, newborns, births)
}

/// Most cells have no newborn, so their lives needn't come by here.
#[cold]
#[inline(never)]
fn deliver_each<R: Wait>(
    rt: &R,
    alloc: Global,
    bank: &Bank,
    seat: &mut Seat,
    cell: u32,
    newborns: Births,
    births: &mut Deliveries,
) -> Result<(), Memory>
    requires { seat.old.bank ≡ bank.now }
    ensures { OnOk result (AreDelivered cell (map newborn_value newborns)
        seat.old seat.new births.old births.new) }
{
    calls_number_genotypes();
    for newborn in newborns.into_vec() {
        let delivered = deliver_one(rt, alloc, bank, seat, cell, newborn)?;
        births.push(delivered)?;
    }
    Ok(())
}

/// A newborn of a cell, with the handle of its genome.
fn deliver_one<R: Wait>(
    rt: &R,
    alloc: Global,
    bank: &Bank,
    seat: &mut Seat,
    cell: u32,
    newborn: Newborn,
) -> Result<Delivered, Memory>
    requires { seat.old.bank ≡ bank.now }
    ensures birth { IfOk result
        (λ delivered. birth_of delivered ≡ born_in cell (newborn_value newborn)) }
    ensures kept { (seat.new.bank ≡ seat.old.bank) × (seat.new.share ≡ seat.old.share) }
    ensures call { IfOk result (λ delivered. MakesCall seat.old seat.new (call_for delivered)) }
    ensures number { IfOk result (λ delivered. IsNumbered seat.new.seen delivered) }
{
    let Newborn {
        nth,
        genome,
        origin,
        merit,
        credited,
    } = newborn;
    let handle = bank.intern(rt, alloc, seat, genome)?;
    let tree_genome = Arc::try_clone(&handle.genome)?;
    Ok(Delivered {
        cell,
        nth,
        handle,
        tree_genome,
        origin,
        merit,
        credited,
    })
}
