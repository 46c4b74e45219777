// The words of `save`.
ghost use Rattle.std.specs.Prelude.{◌<◌, length};
ghost use Rattle.command_line.specs.Reading.{IsTold};
ghost use Rattle.command_line.specs.Rows.{save_row, told_by_row};

use crate::reading::{Arguments, read};
use crate::refused::Refused;
use crate::workers::{workers_command, workers_in};
use clap::{ArgMatches, Command};
use std::alloc::{AllocError, Global};

struct Save;

impl Arguments for Save {
    type Taken = u32;

    ghost table_row = { save_row };

    fn command<'a>(alloc: Global) -> Result<Command<'a>, AllocError> {
        workers_command(alloc, "save")
    }

    fn taken(matches: &ArgMatches<'_>) -> Option<u32> {
        workers_in(matches)
    }
}

/// Reads the words of `save`, and gives the number of workers. The first word is the name of the
/// command.
#[tactic(auto, using(crate::proofs::CommandForms::save_reads))]
pub(crate) fn read_save(alloc: Global, words: &[String]) -> Result<u32, Refused>
    requires { 0 < length words.now }
    ensures { IsTold (told_by_row save_row) words.now result }
{
    read::<Save>(alloc, words)
}
