// How the words of a command are read: the parser takes them by their form, and each number is
// read of a text.
ghost use Rattle.std.specs.Prelude.{◌≡◌, ◌<◌, length, IfOk, option_and_then};
ghost use Rattle.clap.specs.Words.{app_of, found_of, rows_of};
ghost use Rattle.command_line.specs.Parsers.{app_by, told_in};
ghost use Rattle.command_line.specs.Reading.{IsReadableRow, IsTold};
ghost use Rattle.command_line.specs.Rows.{CommandRow, told_by_row};

use crate::parser::matches;
use crate::refused::Refused;
use clap::{ArgMatches, Command};
use numerals::laws::one_spelling;
use std::alloc::{AllocError, Global};

/// The arguments of a command.
pub(crate) trait Arguments {
    /// What is taken of its words.
    type Taken;

    /// Its row in the table.
    ghost table_row: { CommandRow Self.Taken };

    /// The command that reads the words.
    fn command<'a>(alloc: Global) -> Result<Command<'a>, AllocError>
        ensures { IfOk result (λ c. app_of c
            ≡ app_by table_row.name table_row.form table_row.texts) };

    /// What is taken of the matches.
    fn taken(matches: &ArgMatches<'_>) -> Option<Self::Taken>
        ensures { result ≡ option_and_then table_row.take
            (told_in table_row.form table_row.texts (rows_of (found_of matches.now))) };
}

/// Reads the words of a command. The first word is the name of the command.
pub(crate) fn read<A: Arguments>(alloc: Global, words: &[String]) -> Result<A::Taken, Refused>
    requires some { 0 < length words.now }
    requires reads { IsReadableRow A.table_row }
    ensures { IsTold (told_by_row A.table_row) words.now result }
{
    one_spelling();
    let Ok(command) = A::command(alloc) else {
        return Err(Refused::Memory);
    };
    let matches = matches(command, words)?;
    A::taken(&matches).ok_or(Refused::BadWords)
}
