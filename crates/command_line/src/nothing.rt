// The words of a command that takes none.
ghost use Rattle.std.specs.Prelude.{◌<◌, length};
ghost use Rattle.command_line.specs.Reading.{IsTold};
ghost use Rattle.command_line.specs.Rows.{nothing_row, told_by_row};

use crate::reading::{Arguments, read};
use crate::refused::Refused;
use clap::{ArgMatches, Command};
use std::alloc::{AllocError, Global};

struct Nothing;

impl Arguments for Nothing {
    type Taken = ();

    ghost table_row = { nothing_row };

    fn command<'a>(alloc: Global) -> Result<Command<'a>, AllocError> {
        Ok(Command::new(alloc, "bare").disable_help_flag(true))
    }

    fn taken(_matches: &ArgMatches<'_>) -> Option<()> {
        Some(())
    }
}

/// Reads the words of a command that has no arguments. The first word is the name, and only `--`
/// may follow it.
#[tactic(auto, using(crate::proofs::CommandForms::nothing_reads))]
pub(crate) fn read_nothing(alloc: Global, words: &[String]) -> Result<(), Refused>
    requires { 0 < length words.now }
    ensures { IsTold (told_by_row nothing_row) words.now result }
{
    read::<Nothing>(alloc, words)
}
