// Seats: from which callers use a bank.
ghost use Rattle.std.specs.Prelude.{◌≡◌};

use crate::rule::Pass;
use std::marker::Model;

/// A place at a bank, from which one thread at a time calls it.
///
/// Contracts see what it has seen of the bank's history, which calls are its own, and its share of
/// all seats of the bank. It takes no bytes.
#[derive(Drop)]
pub struct Seat {
    pub(crate) pass: Pass,
}

impl Model for Seat {
    ghost use Rattle.genotype_bank.specs.BankTable.{IsIdleSeat, seat_of};
    ghost use Rattle.genotype_bank.specs.BankHistory.{SeatValue};

    ghost Value = { SeatValue };

    ghost view = { λ s. seat_of s.pass.table_id s.pass.me };

    ghost invariant = { λ s. IsIdleSeat s.pass.me };
}

impl Seat {
    ghost use Rattle.genotype_bank.specs.BankHistory.{all_shares, own_calls_of};

    /// A whole seat has made all calls that it has seen.
    pub fn owns_all(&self)
        ensures { self.now.share ≡ all_shares → own_calls_of self.now ≡ self.now.seen }
    {
        let _pass = &self.pass;
    }
}
