// The option `--workers`, which several commands have.
ghost use Rattle.std.specs.Prelude.{◌≡◌, ◌∷◌, [], IfOk, codes, option_and_then};
ghost use Rattle.clap.specs.Words.{app_of, found_of, rows_of, first_of};
ghost use Rattle.numerals.specs.Numeral.{number_of};
ghost use Rattle.command_line.specs.Commands.{positional_form, workers_form};
ghost use Rattle.command_line.specs.Parsers.{app_by};

use crate::numbers::number_in;
use clap::{Arg, ArgMatches, Command};
use std::alloc::{AllocError, Global};

/// The least number of workers that a command accepts.
pub const LEAST_WORKERS: u32 = 1;

/// The greatest number of workers that a command accepts.
pub const MOST_WORKERS: u32 = 64;

pub(crate) fn workers_in(matches: &ArgMatches<'_>) -> Option<u32>
    ensures { result ≡ option_and_then (number_of 1 64)
        (first_of (codes "workers") (rows_of (found_of matches.now))) }
{
    number_in(matches, "workers", LEAST_WORKERS, MOST_WORKERS)
}

/// The command of this name with `--workers`.
pub(crate) fn workers_command<'a>(alloc: Global, name: &'a str) -> Result<Command<'a>, AllocError>
    ensures { IfOk result (λ c. app_of c ≡ app_by name.entry.now workers_form []) }
{
    let command = Command::new(alloc, name).disable_help_flag(true);
    let workers = Arg::new(alloc, "workers")
        .long("workers")
        .default_value("1");
    command.arg(workers)
}

/// The command of this name with one positional, of this name, and `--workers`.
pub(crate) fn positional_command<'a>(
    alloc: Global,
    name: &'a str,
    positional: &'a str,
) -> Result<Command<'a>, AllocError>
    ensures { IfOk result (λ c. app_of c
        ≡ app_by name.entry.now positional_form (positional.entry.now ∷ [])) }
{
    let command = workers_command(alloc, name)?;
    let required = Arg::new(alloc, positional).required(true);
    command.arg(required)
}
