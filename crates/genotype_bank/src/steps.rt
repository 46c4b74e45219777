// The steps of a call on a bank's table, one by one.
ghost use Rattle.std.specs.Prelude.{◌≡◌, ℕ, ◌+◌, ◌-◌, ◌%◌, ◌^◌, ◌<◌, [], ◌∷◌, ◌++◌, ◌⊎◌, None, Some, false, true, List};
ghost use mathlib.Core.List.{IsPrefix};
ghost use Rattle.genotype_bank.specs.BankHistory.{entry, genotypes_of, calls_under, all_shares};
ghost use Rattle.genotype_bank.specs.Views.{idle_view, Carries};
ghost use Rattle.genotype_bank.specs.BankSteps.{with_ticket, at_turn, last_drawn_number};
ghost use Rattle.genotype_bank.specs.BankTable.{genomes_in, last_call};
ghost use Rattle.genotype_bank.specs.declared.catalog.Catalog.{Catalog};
ghost use Rattle.genotype_bank.specs.declared.view.Entry.{Entry};

use crate::bank::Bank;
use crate::catalog::Catalog;
use crate::rule::{Draw, Look, Pass, Release};
use std::sync::Wait;
use std::thread;

impl Bank {
    /// Waits until no turn is out, as far as a look can tell. A thread that loses its processor
    /// with a turn of its own holds up all that drew after it.
    pub(crate) fn wait_for_others<R: Wait>(&self, rt: &R) {
        let shared = &self.table.shared;
        for _ in rt.forever() {
            if shared.peek(0) == shared.peek(1) {
                break;
            }
            thread::yield_now();
        }
    }

    /// Draws a turn, and gives its number modulo 2^64.
    pub(crate) fn draw(&self, pass: &mut Pass) -> u64
        requires bank { pass.old.table_id ≡ self.now }
        requires idle { (0 < pass.old.me.0.share) × (pass.old.me.0.ticket ≡ None)
            × (pass.old.me.0.holding ≡ false) }
        ensures same { (pass.new.table_id ≡ pass.old.table_id) × (pass.new.id ≡ pass.old.id) }
        ensures drawn { (j : ℕ) × (t : ℕ) × (result ≡ t % 2 ^ 64)
            × (pass.new.me ≡ (with_ticket pass.old.me.0 j t, pass.old.me.1))
            × (calls_under (j ∷ pass.old.me.0.carried) pass.old.me.0.seen
            ≡ calls_under pass.old.me.0.carried pass.old.me.0.seen) }
    {
        self.table.shared.fetch_add::<Draw>(pass, 0, 1)
    }

    /// Looks whose turn it is. In its own turn the seat sees the whole history, and the catalog is
    /// out with it.
    pub(crate) fn look(&self, pass: &mut Pass) -> u64
        requires bank { pass.old.table_id ≡ self.now }
        requires waits { (pass.old.me.1 ≡ []) × (pass.old.me.0.holding ≡ false)
            × ((t : ℕ) × (pass.old.me.0.ticket ≡ Some t)) }
        ensures same { (pass.new.table_id ≡ pass.old.table_id) × (pass.new.id ≡ pass.old.id) }
        ensures looked { (t : ℕ) → pass.old.me.0.ticket ≡ Some t →
            ((result ≡ t % 2 ^ 64) × ((history : List Entry) × (catalog : Catalog)
            × (pass.new.me ≡ (at_turn pass.old.me.0 history, (0, Some catalog) ∷ []))
            × (genomes_in catalog ≡ genotypes_of history)
            × IsPrefix pass.old.me.0.seen history
            × (calls_under pass.old.me.0.carried history
            ≡ calls_under pass.old.me.0.carried pass.old.me.0.seen)))
            ⊎ ((result ≡ t % 2 ^ 64 → ⊥) × (pass.new.me ≡ pass.old.me)) }
    {
        self.table.shared.load::<Look>(pass, 1)
    }

    /// Takes the catalog out of the slot.
    pub(crate) fn take(&self, pass: &mut Pass) -> Catalog
        requires bank { pass.old.table_id ≡ self.now }
        requires out { (catalog : Catalog) × (pass.old.me.1 ≡ (0, Some catalog) ∷ []) }
        ensures same { (pass.new.table_id ≡ pass.old.table_id) × (pass.new.id ≡ pass.old.id) }
        ensures taken { (pass.old.me.1 ≡ (0, Some result) ∷ [])
            × (pass.new.me ≡ (pass.old.me.0, (0, None) ∷ [])) }
    {
        self.table.shared.exchange(pass, 0, None).unwrap()
    }

    /// Waits for the turn that was drawn, and takes the catalog.
    pub(crate) fn wait_for_turn<R: Wait>(&self, rt: &R, pass: &mut Pass, ticket: u64) -> Catalog
        requires bank { pass.old.table_id ≡ self.now }
        requires drawn { (pass.old.me.1 ≡ []) × (pass.old.me.0.holding ≡ false)
            × ((t : ℕ) × (pass.old.me.0.ticket ≡ Some t) × (ticket ≡ t % 2 ^ 64)) }
        ensures same { (pass.new.table_id ≡ pass.old.table_id) × (pass.new.id ≡ pass.old.id) }
        ensures served { (history : List Entry)
            × (pass.new.me ≡ (at_turn pass.old.me.0 history, (0, None) ∷ []))
            × (genomes_in result ≡ genotypes_of history)
            × IsPrefix pass.old.me.0.seen history
            × (calls_under pass.old.me.0.carried history
            ≡ calls_under pass.old.me.0.carried pass.old.me.0.seen) }
    {
        for _ in rt.forever() {
            if self.look(pass) == ticket {
                return self.take(pass);
            }
            thread::yield_now();
        }
        unreachable!()
    }

    /// Puts the catalog back into the slot.
    pub(crate) fn give_back(&self, pass: &mut Pass, catalog: Catalog)
        requires bank { pass.old.table_id ≡ self.now }
        requires taken { pass.old.me.1 ≡ (0, None) ∷ [] }
        ensures same { (pass.new.table_id ≡ pass.old.table_id) × (pass.new.id ≡ pass.old.id) }
        ensures back { pass.new.me ≡ (pass.old.me.0, (0, Some catalog) ∷ []) }
    {
        drop(self.table.shared.exchange(pass, 0, Some(catalog)));
    }

    /// Passes the turn on. The call is then the last of the history.
    pub(crate) fn release(&self, pass: &mut Pass)
        requires bank { pass.old.table_id ≡ self.now }
        requires turn { (pass.old.me.0.holding ≡ true)
            × Carries pass.old.me.0 (last_drawn_number pass.old.me.0) }
        requires back { (catalog : Catalog) × (pass.old.me.1 ≡ (0, Some catalog) ∷ [])
            × (genomes_in catalog ≡ genotypes_of (pass.old.me.0.seen
            ++ entry (last_drawn_number pass.old.me.0) (last_call catalog) ∷ [])) }
        ensures same { (pass.new.table_id ≡ pass.old.table_id) × (pass.new.id ≡ pass.old.id) }
        ensures released { (catalog : Catalog) → pass.old.me.1 ≡ (0, Some catalog) ∷ [] →
            pass.new.me ≡ (
              idle_view pass.old.me.0.share pass.old.me.0.carried
                  (pass.old.me.0.seen
                  ++ entry (last_drawn_number pass.old.me.0) (last_call catalog) ∷ []),
              [],
            ) }
        ensures whole { pass.old.me.0.share ≡ all_shares →
            calls_under pass.old.me.0.carried pass.new.me.0.seen ≡ pass.new.me.0.seen }
    {
        self.table.shared.fetch_add::<Release>(pass, 1, 1);
    }

    /// Gives the catalog back, and passes the turn on.
    pub(crate) fn end_turn(&self, pass: &mut Pass, catalog: Catalog)
        requires bank { pass.old.table_id ≡ self.now }
        requires turn { (pass.old.me.1 ≡ (0, None) ∷ []) × (pass.old.me.0.holding ≡ true)
            × Carries pass.old.me.0 (last_drawn_number pass.old.me.0) }
        requires known { genomes_in catalog ≡ genotypes_of (pass.old.me.0.seen
            ++ entry (last_drawn_number pass.old.me.0) (last_call catalog) ∷ []) }
        ensures same { (pass.new.table_id ≡ pass.old.table_id) × (pass.new.id ≡ pass.old.id) }
        ensures ended { pass.new.me ≡ (
          idle_view pass.old.me.0.share pass.old.me.0.carried
              (pass.old.me.0.seen
              ++ entry (last_drawn_number pass.old.me.0) (last_call catalog) ∷ []),
          [],
        ) }
        ensures whole { pass.old.me.0.share ≡ all_shares →
            calls_under pass.old.me.0.carried pass.new.me.0.seen ≡ pass.new.me.0.seen }
    {
        self.give_back(pass, catalog);
        self.release(pass);
    }
}
