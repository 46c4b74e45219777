// The words of `assay`.
ghost use Rattle.std.specs.Prelude.{◌<◌, length};
ghost use Rattle.command_line.specs.Reading.{IsTold};
ghost use Rattle.command_line.specs.Rows.{assay_row, told_by_row};

use crate::numbers::{number_in, wide_number_in};
use crate::reading::{Arguments, read};
use crate::refused::Refused;
use crate::workers::{positional_command, workers_in};
use clap::{Arg, ArgMatches, Command};
use std::alloc::{AllocError, Global};

/// The greatest number of seeds that `assay` accepts. The least is 1.
pub const MOST_SEEDS: u32 = 64;

/// The greatest first seed that `assay` accepts.
pub const MOST_FIRST_SEED: u64 = 9_223_372_036_854_775_744;

/// The values of `assay`: how many seeds it runs, the first of them, and the number of workers of
/// each world.
#[derive(Clone, Copy, Debug)]
pub struct Assay {
    pub count: u32,
    pub first: u64,
    pub workers: u32,
}

impl Arguments for Assay {
    type Taken = Assay;

    ghost table_row = { assay_row };

    fn command<'a>(alloc: Global) -> Result<Command<'a>, AllocError> {
        let command = positional_command(alloc, "assay", "count")?;
        let first = Arg::new(alloc, "first").required(true);
        command.arg(first)
    }

    fn taken(matches: &ArgMatches<'_>) -> Option<Assay> {
        let count = number_in(matches, "count", 1, MOST_SEEDS)?;
        let first = wide_number_in(matches, "first", MOST_FIRST_SEED)?;
        let workers = workers_in(matches)?;
        Some(Assay {
            count,
            first,
            workers,
        })
    }
}

/// Reads the words of `assay`. The first word is the name of the command.
#[tactic(auto, using(crate::proofs::CommandForms::assay_reads))]
pub(crate) fn read_assay(alloc: Global, words: &[String]) -> Result<Assay, Refused>
    requires { 0 < length words.now }
    ensures { IsTold (told_by_row assay_row) words.now result }
{
    read::<Assay>(alloc, words)
}
