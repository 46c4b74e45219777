// What `clap` makes of words.
ghost use Rattle.std.specs.Prelude.{◌≡◌, [], true, MatchResult, map, string_bytes};
ghost use Rattle.clap.specs.Words.{app_of, found_of, rows_of, fault_of, matches_of, is_simple, is_simple_and_free};
ghost use Rattle.command_line.specs.Reading.{IsRefusedBy};

use crate::refused::{Refused, refused_by};
use clap::{ArgMatches, Command};

/// The matches of a simple command, or a fault of the words.
pub(crate) fn matches<'a>(
    command: Command<'a>,
    words: &'a [String],
) -> Result<ArgMatches<'a>, Refused>
    requires simple { is_simple (app_of command) ≡ true }
    requires free { is_simple_and_free (app_of command) ≡ true }
    ensures { MatchResult result
        (λ m. (fault_of (app_of command.entry) (map string_bytes words.entry.now) ≡ [])
        × (rows_of (found_of m)
        ≡ matches_of (app_of command.entry) (map string_bytes words.entry.now)))
        (IsRefusedBy (fault_of (app_of command.entry) (map string_bytes words.entry.now))) }
{
    match command.try_get_matches_from(words) {
        Ok(matches) => Ok(matches),
        Err(error) => Err(refused_by(error.kind())),
    }
}
