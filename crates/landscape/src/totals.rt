// What a survey comes to.
ghost use Rattle.std.specs.Prelude.{◌≡◌, count_by, is_some};
ghost use Rattle.landscape.specs.Landscape.{better_than, has_better, has_same, totals_of};

use crate::entry::Entry;
use crate::first_divide::Trial;
use crate::surveyed::Survey;

/// How many entries a survey has, how many of them have a trial, how many of these have the tested
/// genome itself as child, and how many are better than the base.
#[derive(Clone, Copy, Debug, PartialEq, Eq)]
pub struct Totals {
    pub entries: u64,
    pub trials: u64,
    pub same: u64,
    pub better: u64,
}

/// Whether a trial gives more merit a step than the base's. Where the base has none it does.
pub fn is_better(base: Option<Trial>, trial: Trial) -> bool
    ensures { result ≡ better_than base trial }
{
    match base {
        None => true,
        Some(base) => {
            u128::from(trial.merit) * u128::from(base.step)
                > u128::from(base.merit) * u128::from(trial.step)
        }
    }
}

fn has_same(trial: Option<Trial>) -> bool
    ensures { result ≡ has_same trial }
{
    match trial {
        Some(trial) => trial.same,
        None => false,
    }
}

fn has_better(base: Option<Trial>, trial: Option<Trial>) -> bool
    ensures { result ≡ has_better base trial }
{
    match trial {
        Some(trial) => is_better(base, trial),
        None => false,
    }
}

impl Survey {
    /// What the survey comes to.
    #[tactic(auto, unfolding(crate::specs::Landscape::totals_of))]
    pub fn totals(&self) -> Totals
        ensures { result ≡ totals_of self.now }
    {
        let entries = self.entries.as_slice();
        Totals {
            entries: entries.len() as u64,
            trials: count_trials(entries),
            same: count_same(entries),
            better: count_better(self.base, entries),
        }
    }
}

fn count_trials(entries: &[Entry]) -> u64
    ensures { result ≡ count_by (λ entry. is_some entry.trial) entries.now }
{
    entries.iter().filter(|entry| entry.trial.is_some()).count() as u64
}

fn count_same(entries: &[Entry]) -> u64
    ensures { result ≡ count_by (λ entry. has_same entry.trial) entries.now }
{
    entries.iter().filter(|entry| has_same(entry.trial)).count() as u64
}

fn count_better(base: Option<Trial>, entries: &[Entry]) -> u64
    ensures { result ≡ count_by (λ entry. has_better base entry.trial) entries.now }
{
    entries
        .iter()
        .filter(|entry| has_better(base, entry.trial))
        .count() as u64
}
