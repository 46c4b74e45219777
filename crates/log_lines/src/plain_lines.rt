// Reads the lines without genomes.
ghost use Rattle.std.specs.Prelude.{◌≡◌, ◌∷◌, [], option_copied, option_map};
ghost use Rattle.log_lines.specs.Prelude.{rate_named};
ghost use Rattle.log_lines.specs.Forms.{count_form, plain_forms, rate_form};
ghost use Rattle.log_lines.specs.Kinds.{death_row, large, times};
ghost use Rattle.log_lines.specs.Line.{Count, line_values};
ghost use Rattle.log_lines.specs.LineReading.{read_as, read_by};
ghost use Rattle.log_lines.specs.Words.{read_first, words_of};

use crate::log_line::LogLine;
use crate::stats::Stats;
use crate::words::{large_first, small_first, small_last, split_at};
use mutations::RateName;
use random_streams::MILLION;

/// The fields of a death.
#[derive(Clone, Copy)]
struct Death {
    id: u64,
    update: u32,
    cell: u32,
}

#[inline(never)]
fn read_death(rest: Option<&[u8]>) -> Option<Death>
    ensures { option_map (λ d. (d.id, (d.update, d.cell))) result
        ≡ death_row.read (words_of (option_copied rest.entry)) }
{
    let (id, rest) = large_first(rest)?;
    let (update, rest) = small_first(rest, 0, u32::MAX)?;
    let cell = small_last(rest, 0, u32::MAX)?;
    Some(Death { id, update, cell })
}

fn rate_first<'a>(rest: Option<&'a [u8]>) -> Option<(RateName, Option<&'a [u8]>)>
    ensures { option_map (λ p. (p.0, words_of (option_copied p.1))) result
        ≡ read_first rate_named (words_of (option_copied rest.entry)) }
{
    match rest {
        Some(bytes) => {
            let (word, others) = split_at(bytes, b' ');
            match RateName::from_name(word) {
                Some(value) => Some((value, others)),
                None => None,
            }
        }
        None => None,
    }
}

/// The fields of a rate.
#[derive(Clone, Copy)]
struct Rate {
    update: u32,
    name: RateName,
    ppm: u32,
}

#[inline(never)]
fn read_rate(rest: Option<&[u8]>) -> Option<Rate>
    ensures { option_map (λ r. (r.update, (r.name, r.ppm))) result
        ≡ rate_form.row.read (words_of (option_copied rest.entry)) }
{
    let (update, rest) = small_first(rest, 0, u32::MAX)?;
    let (name, rest) = rate_first(rest)?;
    let ppm = small_last(rest, 0, MILLION)?;
    Some(Rate { update, name, ppm })
}

/// The nine counts that end a line.
fn tasks_last(rest: Option<&[u8]>) -> Option<[u64; 9]>
    ensures { result ≡ (times 9 large).read (words_of (option_copied rest.entry)) }
{
    let mut tasks = [0; 9];
    let mut left = rest;
    for at in 0..9usize {
        let (count, others) = large_first(left)?;
        tasks[at] = count;
        left = others;
    }
    match left {
        None => Some(tasks),
        Some(_) => None,
    }
}

#[inline(never)]
fn read_stats(rest: Option<&[u8]>) -> Option<Stats>
    ensures { option_map (λ stats. Count stats) result
        ≡ read_as count_form (words_of (option_copied rest.entry)) }
{
    let (update, rest) = small_first(rest, 0, u32::MAX)?;
    let (living, rest) = large_first(rest)?;
    let (births, rest) = large_first(rest)?;
    let (deaths, rest) = large_first(rest)?;
    let (genotypes, rest) = large_first(rest)?;
    let (merit, rest) = large_first(rest)?;
    let tasks = tasks_last(rest)?;
    Some(Stats {
        update,
        living,
        births,
        deaths,
        genotypes,
        merit,
        tasks,
    })
}

/// A line without genomes.
pub(crate) fn read_plain(mark: u8, rest: Option<&[u8]>) -> Option<LogLine>
    ensures { option_map line_values result
        ≡ read_by plain_forms (mark ∷ []) (words_of (option_copied rest.entry)) }
{
    match mark {
        b'D' => match read_death(rest) {
            Some(Death { id, update, cell }) => Some(LogLine::Death { id, update, cell }),
            None => None,
        },
        b'X' => match read_death(rest) {
            Some(Death { id, update, cell }) => Some(LogLine::Cleared { id, update, cell }),
            None => None,
        },
        b'R' => match read_rate(rest) {
            Some(Rate { update, name, ppm }) => Some(LogLine::Rate { update, name, ppm }),
            None => None,
        },
        b'U' => match read_stats(rest) {
            Some(stats) => Some(LogLine::Count(stats)),
            None => None,
        },
        b'E' => match small_last(rest, 0, u32::MAX) {
            Some(updates) => Some(LogLine::End { updates }),
            None => None,
        },
        _ => None,
    }
}
