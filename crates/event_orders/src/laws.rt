// What no order of events changes (docs/WORLD.md, "Any order of events").
ghost use Rattle.std.specs.Prelude.{◌≡◌, ℕ, List, map};
ghost use Rattle.genotype_bank.specs.BankHistory.{HasEachOnce, genotypes_of};
ghost use Rattle.genotype_bank.specs.declared.view.Entry.{Entry};
ghost use Rattle.world_config.specs.Values.{values_of};
ghost use Rattle.world_rules.specs.WorldRun.{world_after};
ghost use Rattle.event_orders.specs.declared.schedule.ScheduleEvent.{ScheduleEvent};
ghost use Rattle.event_orders.specs.Orders.{GoesOnWith, IsInterleaving, StartsUpdate, AfterEachGather, IsScheduleFor, LooksNeverFall, ShowsEachUpdate};
ghost use Rattle.event_orders.specs.Schedule.{IsSchedule, state_after};

use crate::Schedule;
use genotype_bank::laws::genotypes_are_what_was_interned;
use world_config::Config;

/// Whatever the order of lawful events, the world at the end of each update is that of the
/// definition, which runs one cell after another; the bank then has the genomes of all founders so
/// far and of all births, each once; each picture is that of its update; and no observer looks at
/// an older picture than before.
pub fn any_order(config: &Config, events: &Schedule)
    requires { IsSchedule (values_of config.now) events.now }
    ensures world { AfterEachGather (values_of config.now) events.now
        (λ updates s. s.world ≡ world_after (values_of config.now) updates) }
    ensures genomes { AfterEachGather (values_of config.now) events.now
        (λ updates s. HasEachOnce (genotypes_of s.history)
        (map (λ link. link.genome) (world_after (values_of config.now) updates).everyone)) }
    ensures pictures { ShowsEachUpdate (values_of config.now)
        (state_after (values_of config.now) events.now).pictures }
    ensures observers { LooksNeverFall events.now }
{
    genotypes_are_what_was_interned();
}

/// There is a schedule for any number of updates, however the cells are shared among seats; it has
/// the picture of each update, and an observer that has seen the last one.
pub fn some_order(config: &Config, updates: u32)
    ensures { (seat_of : ℕ → ℕ) → (events : List ScheduleEvent)
        × IsScheduleFor (values_of config.now) updates seat_of events }
{}

/// At the start of an update let each seat intern the newborns of its own cells, in order of cell
/// and birth. Whatever the order of the calls of different seats, a schedule goes on with them.
pub fn any_interleaving(config: &Config, events: &Schedule)
    requires { IsSchedule (values_of config.now) events.now }
    ensures { (seat_of : ℕ → ℕ) (calls : List Entry)
        → StartsUpdate (state_after (values_of config.now) events.now)
        → IsInterleaving (values_of config.now)
        (state_after (values_of config.now) events.now).world seat_of calls
        → (more : List ScheduleEvent)
        × GoesOnWith (values_of config.now) events.now calls more }
{}
