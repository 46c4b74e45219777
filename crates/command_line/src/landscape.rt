// The words of `landscape`.
ghost use Rattle.std.specs.Prelude.{◌<◌, length};
ghost use Rattle.command_line.specs.Reading.{IsTold};
ghost use Rattle.command_line.specs.Rows.{landscape_row, told_by_row};

use crate::numbers::number_in;
use crate::reading::{Arguments, read};
use crate::refused::Refused;
use clap::{Arg, ArgMatches, Command};
use std::alloc::{AllocError, Global};

/// The greatest number of steps that `landscape` accepts. The least is 1.
pub const MOST_TRIED_STEPS: u32 = 100_000;

struct Landscape;

impl Arguments for Landscape {
    type Taken = u32;

    ghost table_row = { landscape_row };

    fn command<'a>(alloc: Global) -> Result<Command<'a>, AllocError> {
        let steps = Arg::new(alloc, "steps").required(true);
        Command::new(alloc, "landscape")
            .disable_help_flag(true)
            .arg(steps)
    }

    fn taken(matches: &ArgMatches<'_>) -> Option<u32> {
        number_in(matches, "steps", 1, MOST_TRIED_STEPS)
    }
}

/// Reads the words of `landscape`, and gives the number of steps. The first word is the name of the
/// command.
#[tactic(auto, using(crate::proofs::CommandForms::landscape_reads))]
pub(crate) fn read_landscape(alloc: Global, words: &[String]) -> Result<u32, Refused>
    requires { 0 < length words.now }
    ensures { IsTold (told_by_row landscape_row) words.now result }
{
    read::<Landscape>(alloc, words)
}
