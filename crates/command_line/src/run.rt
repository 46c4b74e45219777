// The words of `run`.
ghost use Rattle.std.specs.Prelude.{◌≡◌, ◌<◌, length, option_map};
ghost use Rattle.command_line.specs.Commands.{run_with};
ghost use Rattle.command_line.specs.Reading.{IsTold};
ghost use Rattle.command_line.specs.Rows.{run_row, told_by_row};

use crate::numbers::{spelled, text_in};
use crate::reading::{Arguments, read};
use crate::refused::Refused;
use crate::workers::{workers_command, workers_in};
use clap::{Arg, ArgMatches, Command};
use std::alloc::{AllocError, Global};

/// The greatest number of looks that `run --watch` accepts.
pub const MOST_LOOKS: u32 = 1_000_000;

/// The values of `run`: the number of workers, and of the watcher's looks if there is one.
#[derive(Clone, Copy, Debug)]
pub struct Run {
    pub workers: u32,
    pub watch: Option<u32>,
}

fn with_watch(workers: u32, watch: Option<&str>) -> Option<Run>
    ensures { result ≡ run_with (option_map (λ t. t.now) watch.entry) workers }
{
    let watch = match watch {
        Some(text) => Some(spelled(0, MOST_LOOKS, text)?),
        None => None,
    };
    Some(Run { workers, watch })
}

impl Arguments for Run {
    type Taken = Run;

    ghost table_row = { run_row };

    fn command<'a>(alloc: Global) -> Result<Command<'a>, AllocError> {
        let command = workers_command(alloc, "run")?;
        let watch = Arg::new(alloc, "watch").long("watch");
        command.arg(watch)
    }

    fn taken(matches: &ArgMatches<'_>) -> Option<Run> {
        let workers = workers_in(matches)?;
        with_watch(workers, text_in(matches, "watch"))
    }
}

/// Reads the words of `run`. The first word is the name of the command.
#[tactic(auto, using(crate::proofs::CommandForms::run_reads))]
pub(crate) fn read_run(alloc: Global, words: &[String]) -> Result<Run, Refused>
    requires { 0 < length words.now }
    ensures { IsTold (told_by_row run_row) words.now result }
{
    read::<Run>(alloc, words)
}
