// The life of one update.
ghost use Rattle.std.specs.Prelude.{◌==◌, ◌≡◌, ◌+◌, ◌*◌, ◌<◌, ◌≤◌, ◌^◌, [], IfOk, None, OnOk, length};
ghost use Rattle.organism.specs.Prelude.{rule_numbers, letters, record_of, word_of};
ghost use Rattle.organism.specs.Life.{IsDivide, HasAllowedLength, OnViable};
ghost use Rattle.organism.specs.SettingNumbers.{GoesOn, life_now, setting_numbers};
ghost use Rattle.organism.specs.UpdateLife.{life_state, copy_of, after_copy_of, birth_record, child_letters, after_child, after_effect, after_outcome, after_step, age_of_death, life};

use crate::outcome::Outcome;
use crate::{Births, Newborn, Organism, Ran, Settings};
use avida_port::Memory;
use divide_rules::DivideAsk;
use instruction_set::Letter;
use mutations::{Born, Limits, Rates, copy_error, divide_errors};
use random_streams::Draws;
use std::alloc::Global;

impl Organism {
    /// Runs the organism for one update, at most `slices` steps. If memory runs out, drop the
    /// organism and its births.
    #[tactic(auto, unfolding(crate::specs::UpdateLife::life))]
    pub fn run(
        &mut self,
        alloc: Global,
        slices: u64,
        settings: &Settings,
        draws: &mut Draws,
        births: &mut Births,
    ) -> Result<Ran, Memory>
        requires age { self.old.age < 2 ^ 62 }
        requires slices { slices < 2 ^ 27 }
        requires fresh { draws.old.taken ≡ 0 }
        requires no_births { births.old ≡ [] }
        ensures life { IfOk result (λ ran. (life_state self.new births.new draws.new, ran)
            ≡ life (setting_numbers settings.now) (word_of draws.old)
            (life_state self.old births.old draws.old)
            slices) }
        ensures stream { OnOk result (draws.new ≡ record draws.old { taken = draws.new.taken }) }
        ensures bounds { OnOk result
            (GoesOn (setting_numbers settings.now) slices slices (65536 * slices)
            (life_now self.old births.old draws.old)
            (life_now self.new births.new draws.new)) }
    {
        let death = self.age_of_death(settings);
        for step in 0..slices {
            self.live(alloc, settings, draws, births)?;
            if self.has_age(death) {
                return Ok(Ran::Died { after: step + 1 });
            }
        }
        Ok(Ran::Lives)
    }

    /// The age of death, which no step changes. Where no age kills it is one that no organism
    /// reaches.
    fn age_of_death(&self, settings: &Settings) -> u64
        ensures { result ≡ age_of_death (setting_numbers settings.now) self.now }
    {
        if settings.death {
            u64::from(settings.age_limit) * u64::from(self.machine.birth_length())
        } else {
            u64::MAX
        }
    }

    #[inline(always)]
    fn has_age(&self, age: u64) -> bool
        ensures { result ≡ (self.now.age == age) }
    {
        self.age == age
    }

    /// One step, with its copy error and, where it divides, a newborn.
    #[inline(always)]
    #[tactic(auto, unfolding(crate::specs::UpdateLife::after_step, crate::specs::Life::life_step, crate::specs::Life::after_letter, virtual_cpu::specs::Step::step))]
    fn live(
        &mut self,
        alloc: Global,
        settings: &Settings,
        draws: &mut Draws,
        births: &mut Births,
    ) -> Result<(), Memory>
        requires age { self.old.age < 2 ^ 63 }
        requires room { draws.old.taken < 2 ^ 44 }
        requires few_births { length births.old < 2 ^ 27 }
        ensures state { OnOk result (life_state self.new births.new draws.new
            ≡ after_step (setting_numbers settings.now) (word_of draws.old)
            (life_state self.old births.old draws.old)) }
        ensures stream { OnOk result (draws.new ≡ record draws.old { taken = draws.new.taken }) }
        ensures bounds { OnOk result (GoesOn (setting_numbers settings.now) 1 1 65536
            (life_now self.old births.old draws.old)
            (life_now self.new births.new draws.new)) }
    {
        let letter = self.take();
        match letter {
            Letter::Io | Letter::HDivide => self.end_step(alloc, letter, settings, draws, births),
            _ => {
                let copy = draw_copy(letter, &settings.rates, draws);
                self.perform_quietly(letter, copy);
                Ok(())
            }
        }
    }

    /// The letter that was taken, no h-copy, has its effect, and what follows from it.
    #[inline(never)]
    fn end_step(
        &mut self,
        alloc: Global,
        letter: Letter,
        settings: &Settings,
        draws: &mut Draws,
        births: &mut Births,
    ) -> Result<(), Memory>
        requires age { self.old.age < 2 ^ 63 }
        requires room { draws.old.taken < 2 ^ 44 }
        requires few_births { length births.old < 2 ^ 27 }
        ensures state { OnOk result (life_state self.new births.new draws.new
            ≡ after_effect (setting_numbers settings.now) (word_of draws.old)
            (life_state self.old births.old draws.old) letter None) }
        ensures stream { OnOk result (draws.new ≡ record draws.old { taken = draws.new.taken }) }
        ensures bounds { OnOk result (GoesOn (setting_numbers settings.now) 1 1 65536
            (life_now self.old births.old draws.old)
            (life_now self.new births.new draws.new)) }
    {
        let outcome = self.perform_telling(letter, None, &settings.rules);
        self.follow(alloc, outcome, settings, draws, births)
    }

    /// A viable divide makes a newborn and renews the parent.
    #[inline(always)]
    fn follow(
        &mut self,
        alloc: Global,
        outcome: Outcome,
        settings: &Settings,
        draws: &mut Draws,
        births: &mut Births,
    ) -> Result<(), Memory>
        requires divide { OnViable outcome (IsDivide self.old) }
        requires child { OnViable outcome (HasAllowedLength (rule_numbers settings.now.rules)) }
        requires room { draws.old.taken < 2 ^ 45 }
        requires few_births { length births.old < 2 ^ 27 }
        ensures state { OnOk result (life_state self.new births.new draws.new
            ≡ after_outcome (setting_numbers settings.now) (word_of draws.old)
            (life_state self.old births.old draws.old) outcome) }
        ensures stream { OnOk result (draws.new ≡ record draws.old { taken = draws.new.taken }) }
        ensures bounds { OnOk result (GoesOn (setting_numbers settings.now) 0 1 65534
            (life_now self.old births.old draws.old)
            (life_now self.new births.new draws.new)) }
    {
        match outcome {
            Outcome::Nothing => Ok(()),
            Outcome::Task(_) => Ok(()),
            Outcome::Refused { .. } => Ok(()),
            Outcome::Viable(ask) => self.bear(alloc, &ask, settings, draws, births),
        }
    }

    #[cold]
    #[inline(never)]
    #[tactic(auto, unfolding(crate::specs::Life::renewed))]
    fn bear(
        &mut self,
        alloc: Global,
        ask: &DivideAsk,
        settings: &Settings,
        draws: &mut Draws,
        births: &mut Births,
    ) -> Result<(), Memory>
        requires divide { IsDivide self.old ask.now }
        requires child { HasAllowedLength (rule_numbers settings.now.rules) ask.now }
        requires room { draws.old.taken < 2 ^ 45 }
        requires few_births { length births.old < 2 ^ 27 }
        ensures state { OnOk result (life_state self.new births.new draws.new
            ≡ after_outcome (setting_numbers settings.now) (word_of draws.old)
            (life_state self.old births.old draws.old)
            (Outcome.Viable ask.now)) }
        ensures stream { OnOk result (draws.new ≡ record draws.old { taken = draws.new.taken }) }
        ensures bounds { OnOk result (GoesOn (setting_numbers settings.now) 0 1 65534
            (life_now self.old births.old draws.old)
            (life_now self.new births.new draws.new)) }
    {
        let nth = births.len() as u32;
        let Born { genome, origin } = self.child(alloc, ask, settings, draws)?;
        self.renew(ask);
        births.push(Newborn {
            nth,
            genome,
            origin,
            merit: self.merit,
            credited: self.credited,
        })
    }

    /// The child with the errors that the words draw.
    #[tactic(auto, unfolding(crate::specs::UpdateLife::birth_record, crate::specs::UpdateLife::after_child))]
    fn child(
        &self,
        alloc: Global,
        ask: &DivideAsk,
        settings: &Settings,
        draws: &mut Draws,
    ) -> Result<Born, Memory>
        requires divide { IsDivide self.now ask.now }
        requires child { HasAllowedLength (rule_numbers settings.now.rules) ask.now }
        requires room { draws.old.taken < 2 ^ 45 }
        ensures origin { IfOk result (λ born. record_of born.origin
            ≡ birth_record (setting_numbers settings.now) (word_of draws.old) draws.old.taken
            self.now ask.now) }
        ensures genome { IfOk result (λ born. letters born.genome
            ≡ child_letters (setting_numbers settings.now) (word_of draws.old) draws.old.taken
            self.now ask.now) }
        ensures longest { IfOk result
            (λ born. length (letters born.genome) ≤ settings.now.rules.greatest) }
        ensures stream { OnOk result (draws.new ≡ record draws.old {
          taken = after_child (setting_numbers settings.now) (word_of draws.old) draws.old.taken
              self.now ask.now;
        }) }
        ensures taken { OnOk result (draws.new.taken ≤ draws.old.taken + 65534) }
    {
        let cut = self.machine.cut(alloc, ask)?;
        let limits = Limits {
            least: settings.rules.least,
            greatest: settings.rules.greatest,
        };
        divide_errors(
            alloc,
            &cut.clean,
            &cut.written,
            &self.genome,
            &settings.rates,
            &limits,
            draws,
        )
    }
}

/// The letter of a copy error, which only h-copy draws.
#[inline(always)]
fn draw_copy(letter: Letter, rates: &Rates, draws: &mut Draws) -> Option<Letter>
    requires { draws.old.taken < 2 ^ 44 }
    ensures letter { result ≡ copy_of letter (word_of draws.old) rates.now.copy draws.old.taken }
    ensures stream { draws.new ≡ record draws.old {
      taken = after_copy_of letter (word_of draws.old) rates.now.copy draws.old.taken;
    } }
    ensures taken { draws.new.taken ≤ draws.old.taken + 2 }
{
    match letter {
        Letter::HCopy => copy_error(rates, draws),
        _ => None,
    }
}
