// Genomes tried alone.
ghost use Rattle.std.specs.Prelude.{◌≡◌, IfOk, map, slice_set};
ghost use Rattle.genome.specs.Genome.{letters};
ghost use Rattle.organism.specs.TracedStep.{remark_value};
ghost use Rattle.landscape.specs.Trials.{trial_at, trial_of};
ghost use Rattle.landscape.specs.Landscape.{entry_of, survey_of};

use crate::alone::traced_organism;
use crate::changes::{Change, changes_of};
use crate::entry::{Entries, Entry};
use crate::first_divide::Trial;
use crate::surveyed::Survey;
use avida_port::Memory;
use genome::Genome;
use genome::laws::equal_by_letters;
use instruction_set::Letter;
use organism::Remark;
use rayon::current_num_threads;
use rayon::prelude::*;
use std::alloc::Global;
use std::thread::Threads;

/// Tries a genome: an organism of it takes at most `steps` steps, alone, as in a trace. None
/// exactly if no divide is viable.
pub fn trial(alloc: Global, genome: &Genome, steps: u32) -> Result<Option<Trial>, Memory>
    ensures { IfOk result (λ trial. trial ≡ trial_of (letters genome.now) steps) }
{
    let mut organism = traced_organism(alloc, genome.copy(alloc)?)?;
    for step in 0..steps {
        let traced = organism.trace_step(alloc)?;
        let number = u64::from(step) + 1;
        let shown = trial_at(genome, number, &traced.remark);
        if shown.is_some() {
            return Ok(shown);
        }
    }
    Ok(None)
}

/// The trial of a genome that a step's remark shows.
fn trial_at(genome: &Genome, number: u64, remark: &Remark) -> Option<Trial>
    ensures { result ≡ trial_at (letters genome.now) number (remark_value remark.now) }
{
    equal_by_letters();
    match remark {
        Remark::Divide { merit, child, .. } => Some(Trial {
            step: number,
            merit: *merit,
            same: *child == *genome,
        }),
        _ => None,
    }
}

/// Tries a genome, and each genome that differs from it in one letter, side by side.
#[tactic(auto, unfolding(crate::specs::Landscape::survey_of))]
pub fn survey<R: Threads + Sync>(
    rt: &R,
    alloc: Global,
    genome: &Genome,
    steps: u32,
) -> Result<Survey, Memory>
    ensures { IfOk result (λ survey. survey ≡ survey_of (letters genome.now) steps) }
{
    let base = trial(alloc, genome, steps)?;
    let changes = changes_of(alloc, genome.letters())?;
    let entries = try_all(rt, alloc, genome, steps, &changes)?;
    Ok(Survey {
        base,
        entries: Entries::from_vec(entries),
    })
}

fn try_all<R: Threads + Sync>(
    rt: &R,
    alloc: Global,
    genome: &Genome,
    steps: u32,
    changes: &[Change],
) -> Result<Vec<Entry>, Memory>
    ensures { IfOk result
        (λ entries. entries.items ≡ map (entry_of (letters genome.now) steps) changes.now) }
{
    // More than half of a processor's share, so that no more threads start than there is work for.
    let least = changes.len() / current_num_threads(rt) / 2 + 1;
    let entries: Result<Vec<Entry>, Memory> = changes
        .par_iter()
        .with_min_len(least)
        .map(
            |change: &Change| -> Result<Entry, Memory>
                ensures { IfOk result
                    (λ entry. entry ≡ entry_of (letters genome.entry.now) steps change.now) }
            { try_change(alloc, genome, steps, *change) },
        )
        .collect(rt, alloc)?;
    entries
}

fn try_change(alloc: Global, genome: &Genome, steps: u32, change: Change) -> Result<Entry, Memory>
    ensures { IfOk result (λ entry. entry ≡ entry_of (letters genome.now) steps change) }
{
    let changed = with_letter(alloc, genome, change.at, change.letter)?;
    Ok(Entry {
        at: change.at,
        letter: change.letter,
        trial: trial(alloc, &changed, steps)?,
    })
}

fn with_letter(alloc: Global, genome: &Genome, at: u32, letter: Letter) -> Result<Genome, Memory>
    ensures { IfOk result (λ changed. letters changed ≡ slice_set (letters genome.now) at letter) }
{
    let mut changed = Vec::from_slice(alloc, genome.letters())?;
    let place = at as usize;
    if place < changed.len() {
        changed[place] = letter;
    }
    match Genome::from_letters(alloc, &changed) {
        Ok(genome) => Ok(genome),
        Err(_) => Err(Memory),
    }
}
