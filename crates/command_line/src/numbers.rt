// Texts and numbers of the arguments of a command.
ghost use Rattle.std.specs.Prelude.{◌≡◌, ◌≤◌, [], IfSome, MatchOption, option_and_then, option_map};
ghost use Rattle.std.specs.List.{after_first, before_first};
ghost use Rattle.clap.specs.Words.{first_of, found_of, rows_of};
ghost use Rattle.numerals.specs.Numeral.{number_of};
ghost use Rattle.command_line.specs.Form.{is_comma, three_numbers_of};

use clap::ArgMatches;
use numerals::laws::one_spelling;
use numerals::{number, small_number};

/// The text of the argument of this name.
pub(crate) fn text_in<'a>(matches: &ArgMatches<'a>, name: &str) -> Option<&'a str>
    ensures { option_map (λ t. t.now) result
        ≡ first_of name.now (rows_of (found_of matches.now)) }
{
    matches.get_str(name)
}

/// The number from `least` to `greatest` that the text spells.
pub(crate) fn spelled(least: u32, greatest: u32, text: &str) -> Option<u32>
    ensures { result ≡ number_of least greatest text.now }
{
    small_number(least, greatest, text.as_bytes())
}

/// The number from `least` to `greatest` that the argument of this name spells.
pub(crate) fn number_in(
    matches: &ArgMatches<'_>,
    name: &str,
    least: u32,
    greatest: u32,
) -> Option<u32>
    ensures { result ≡ option_and_then (number_of least greatest)
        (first_of name.now (rows_of (found_of matches.now))) }
{
    spelled(least, greatest, text_in(matches, name)?)
}

/// The number up to `greatest` that the argument of this name spells.
pub(crate) fn wide_number_in(matches: &ArgMatches<'_>, name: &str, greatest: u64) -> Option<u64>
    ensures number { result ≡ option_and_then (number_of 0 greatest)
        (first_of name.now (rows_of (found_of matches.now))) }
    ensures bound { IfSome result (λ n. n ≤ greatest) }
{
    number(0, greatest, text_in(matches, name)?.as_bytes())
}

/// What stands before the first comma, and what stands behind it.
fn cut_at_comma(text: &str) -> Option<(&str, &str)>
    ensures { MatchOption result (after_first is_comma text.now ≡ [])
        (λ cut. (cut.0.now ≡ before_first is_comma text.now)
        × (cut.1.now ≡ after_first is_comma text.now)) }
{
    text.split_once(',')
}

/// The three numbers up to `greatest` that the text spells with a comma between each two.
pub(crate) fn three_numbers(greatest: u32, text: &str) -> Option<[u32; 3]>
    ensures { result ≡ three_numbers_of greatest text.now }
{
    one_spelling();
    let (first, others) = cut_at_comma(text)?;
    let (second, third) = cut_at_comma(others)?;
    let first = spelled(0, greatest, first)?;
    let second = spelled(0, greatest, second)?;
    let third = spelled(0, greatest, third)?;
    Some([first, second, third])
}
