// The words of the commands with one number and `--workers`.
ghost use Rattle.std.specs.Prelude.{◌≡◌, ◌<◌, ◌≤◌, ◌∷◌, [], IfOk, IfSome, length, option_and_then};
ghost use Rattle.clap.specs.Words.{found_of, rows_of};
ghost use Rattle.command_line.specs.Commands.{bench_told, further_updates_told, lineage_told, positional_form, positional_of};
ghost use Rattle.command_line.specs.Parsers.{told_in};
ghost use Rattle.command_line.specs.Reading.{IsReadableRow, IsTold};
ghost use Rattle.command_line.specs.Rows.{positional_row, told_by_row};

use crate::numbers::wide_number_in;
use crate::parser::matches;
use crate::refused::Refused;
use crate::workers::{positional_command, workers_in};
use clap::ArgMatches;
use numerals::laws::one_spelling;
use std::alloc::Global;

/// The greatest cell that `lineage` accepts.
pub const MOST_CELL: u64 = 65_535;

/// The greatest seed that `bench` accepts.
pub const MOST_SEED: u64 = 9_223_372_036_854_775_807;

/// The greatest number of further updates that `resume` and `advance` accept.
pub const MOST_FURTHER_UPDATES: u64 = 1_000_000;

/// The number, and the number of workers.
#[derive(Clone, Copy)]
pub(crate) struct Positional {
    pub number: u64,
    pub workers: u32,
}

fn taken(matches: &ArgMatches<'_>, name: &str, greatest: u64) -> Option<Positional>
    ensures told { result ≡ option_and_then (positional_of greatest)
        (told_in positional_form (name.now ∷ []) (rows_of (found_of matches.now))) }
    ensures bound { IfSome result (λ p. p.number ≤ greatest) }
{
    let number = wide_number_in(matches, name, greatest)?;
    let workers = workers_in(matches)?;
    Some(Positional { number, workers })
}

/// Reads the words of the command of this name with one number up to `greatest`, which the parser
/// knows by the second name. The first word is the name of the command.
pub(crate) fn read_positional<'a>(
    alloc: Global,
    name: &'a str,
    positional: &'a str,
    greatest: u64,
    words: &'a [String],
) -> Result<Positional, Refused>
    requires some { 0 < length words.now }
    requires reads { IsReadableRow (positional_row name.now positional.now greatest) }
    ensures told { IsTold
        (told_by_row (positional_row name.entry.now positional.entry.now greatest))
        words.entry.now result }
    ensures bound { IfOk result (λ p. p.number ≤ greatest) }
{
    one_spelling();
    let Ok(command) = positional_command(alloc, name, positional) else {
        return Err(Refused::Memory);
    };
    let matches = matches(command, words)?;
    taken(&matches, positional, greatest).ok_or(Refused::BadWords)
}

/// The values of `lineage`: the cell whose line of descent is asked for, and the number of workers.
#[derive(Clone, Copy, Debug)]
pub struct Lineage {
    pub cell: u32,
    pub workers: u32,
}

/// Reads the words of `lineage`. The first word is the name of the command.
#[tactic(auto, using(crate::proofs::CommandForms::lineage_reads))]
pub(crate) fn read_lineage(alloc: Global, words: &[String]) -> Result<Lineage, Refused>
    requires { 0 < length words.now }
    ensures { IsTold lineage_told words.now result }
{
    let told = read_positional(alloc, "lineage", "cell", MOST_CELL, words)?;
    Ok(Lineage {
        cell: told.number as u32,
        workers: told.workers,
    })
}

/// The values of `bench`: the seed of the world that it runs, and the number of workers.
#[derive(Clone, Copy, Debug)]
pub struct Bench {
    pub seed: u64,
    pub workers: u32,
}

/// Reads the words of `bench`. The first word is the name of the command.
#[tactic(auto, using(crate::proofs::CommandForms::bench_reads))]
pub(crate) fn read_bench(alloc: Global, words: &[String]) -> Result<Bench, Refused>
    requires { 0 < length words.now }
    ensures { IsTold bench_told words.now result }
{
    let told = read_positional(alloc, "bench", "seed", MOST_SEED, words)?;
    Ok(Bench {
        seed: told.number,
        workers: told.workers,
    })
}

/// The values of `resume` and of `advance`: the number of further updates, and the number of
/// workers.
#[derive(Clone, Copy, Debug)]
pub struct FurtherUpdates {
    pub more: u32,
    pub workers: u32,
}

/// Reads the words of `resume` or `advance`. The first word is the name of the command.
#[tactic(auto, using(crate::proofs::CommandForms::further_reads))]
pub(crate) fn read_further_updates(
    alloc: Global,
    words: &[String],
) -> Result<FurtherUpdates, Refused>
    requires { 0 < length words.now }
    ensures { IsTold further_updates_told words.now result }
{
    // The parser's name for both, which nothing shows.
    let told = read_positional(alloc, "resume", "more", MOST_FURTHER_UPDATES, words)?;
    Ok(FurtherUpdates {
        more: told.number as u32,
        workers: told.workers,
    })
}
