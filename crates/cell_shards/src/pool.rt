// The jobs of an update, each for the thread that takes it first.
ghost use Rattle.std.specs.Prelude.{◌≡◌, ◌<◌, IfOk, IfSome, Some, length, slice_get};

use crate::job::Job;
use atomic_table::{Play, Refused, Seat, Split, Table, TableRule};
use avida_port::Memory;
use std::alloc::Global;
use std::collections::LinkedList;
use std::marker::Model;
use std::snapshot::Snapshot;

/// The rule that each step keeps.
pub(crate) struct PoolRule;

impl TableRule<Option<Job>, LinkedList<Job>, Snapshot<Vec<Job>>> for PoolRule {
    ghost use Rattle.cell_shards.specs.Shards.{IsPool};

    ghost holds = { λ jobs s. IsPool jobs.value.items s };

    ghost first = { λ jobs. jobs.value.items };
}

/// A job is asked for.
pub(crate) struct Ask;

impl Play<Option<Job>, LinkedList<Job>> for Ask {
    ghost use Rattle.cell_shards.specs.Shards.{HasAsked};

    ghost then = { HasAsked };
}

/// A new seat knows what the one knows that it was split from.
pub(crate) struct Alike;

impl Split<LinkedList<Job>> for Alike {
    ghost left = { λ jobs. jobs };

    ghost right = { λ jobs. jobs };
}

type JobTable = Table<Option<Job>, LinkedList<Job>, Snapshot<Vec<Job>>, PoolRule, Global>;

/// The jobs of an update. Threads share it by reference, each with a seat of its own.
#[derive(Drop)]
pub(crate) struct Pool {
    table: JobTable,
}

impl Model for Pool {
    ghost use Rattle.std.specs.Prelude.{◌≡◌, length};
    ghost use Rattle.cell_shards.specs.Shards.{PoolValue};

    ghost Value = { PoolValue };

    ghost view = { λ p. record {
      table = p.table.shared.table_id;
      jobs = p.table.shared.key.value.items;
    } };

    ghost invariant = { λ p.
        (p.table.shared.table_id.words ≡ length p.table.shared.key.value.items)
        × (p.table.shared.table_id.slots ≡ length p.table.shared.key.value.items) };
}

/// A place at a pool, from which one thread at a time takes jobs. It takes no bytes.
#[derive(Drop)]
pub(crate) struct PoolSeat {
    seat: Seat<Option<Job>, LinkedList<Job>>,
}

impl Model for PoolSeat {
    ghost use Rattle.cell_shards.specs.Shards.{PoolValue};

    ghost Value = { PoolValue };

    ghost view = { λ s. record { table = s.seat.table_id; jobs = s.seat.me.0 } };
}

impl Pool {
    /// The jobs, none of which is taken, and a seat.
    pub(crate) fn new(alloc: Global, jobs: Vec<Job>) -> Result<(Pool, PoolSeat), Memory>
        ensures { IfOk result (λ made. (made.0.jobs ≡ jobs.items) × (made.1 ≡ made.0)) }
    {
        let words = vec![in alloc; 0; jobs.len()]?;
        let known = Snapshot::of(&jobs);
        let mut slots = Vec::with_capacity(alloc, jobs.len())?;
        for job in jobs {
            slots.push(Some(job))?;
        }
        match Table::new(alloc, &words, slots, &known) {
            Ok((table, seat)) => Ok((Pool { table }, PoolSeat { seat })),
            Err(Refused { slots: _ }) => Err(Memory),
        }
    }

    /// How many jobs there were at first.
    pub(crate) fn len(&self) -> usize
        ensures { result ≡ length self.now.jobs }
    {
        self.table.slot_count()
    }

    /// A new seat. It takes no memory.
    pub(crate) fn split(&self, seat: &mut PoolSeat) -> PoolSeat
        requires pool { seat.old ≡ self.now }
        requires some { 0 < length self.now.jobs }
        ensures kept { seat.new ≡ seat.old }
        ensures new { result ≡ seat.old }
    {
        let seat = self.table.shared.split_seat::<Alike>(&mut seat.seat);
        PoolSeat { seat }
    }

    /// Takes the job of this number, where nobody has taken it.
    pub(crate) fn take(&self, seat: &mut PoolSeat, number: usize) -> Option<Job>
        requires pool { seat.old ≡ self.now }
        requires number { number < length self.now.jobs }
        ensures kept { seat.new ≡ seat.old }
        ensures job { IfSome result (λ job. slice_get self.now.jobs number ≡ Some job) }
    {
        let shared = &self.table.shared;
        // A look first, since a swap takes the word away from the other threads.
        if shared.peek(number) != 0 {
            return None;
        }
        if shared.swap::<Ask>(&mut seat.seat, number, 1) != 0 {
            return None;
        }
        shared.exchange(&mut seat.seat, number, None)
    }
}
