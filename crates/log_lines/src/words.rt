// Reads the words of a line, from what is left of it.
ghost use Rattle.std.specs.Prelude.{◌≡◌, ◌≤◌, ◌<◌, ◌∷◌, ◌==◌, Some, IfSome, length, option_copied, option_map};
ghost use Rattle.log_lines.specs.Prelude.{slice_split, number_of};
ghost use Rattle.log_lines.specs.Kinds.{read_last};
ghost use Rattle.log_lines.specs.Words.{after_word, pieces_of, read_first, words_of};

use memchr::memchr;
use numerals::leading_number;

/// The piece before the next byte `part`, and what follows that byte. Without such a byte the piece
/// is all of `rest`, and nothing follows it.
pub fn split_at(rest: &[u8], part: u8) -> (&[u8], Option<&[u8]>)
    ensures pieces { slice_split (λ b. b == part) rest.now
        ≡ result.0.now ∷ pieces_of part (option_copied result.1) }
    ensures shorter { IfSome result.1 (λ behind. length behind.now < length rest.now) }
{
    match memchr(part, rest) {
        Some(at) => (&rest[..at], Some(&rest[at + 1..])),
        None => (rest, None),
    }
}

/// What is left of the line behind a word that `rest` follows. None where the word goes on.
pub fn after_word(rest: &[u8]) -> Option<Option<&[u8]>>
    ensures { option_map option_copied result ≡ after_word rest.now }
{
    match rest {
        [] => Some(None),
        [byte, others @ ..] => {
            if *byte == b' ' {
                Some(Some(others))
            } else {
                None
            }
        }
    }
}

/// A number from `least` to `greatest`, and what is left of the line.
#[inline(always)]
fn number_first<'a>(
    rest: Option<&'a [u8]>,
    least: u64,
    greatest: u64,
) -> Option<(u64, Option<&'a [u8]>)>
    ensures number { option_map (λ p. (p.0, words_of (option_copied p.1))) result
        ≡ read_first (number_of least greatest) (words_of (option_copied rest.entry)) }
    ensures bound { IfSome result (λ p. p.0 ≤ greatest) }
{
    match rest {
        Some(bytes) => match leading_number(least, greatest, bytes) {
            Some((value, len)) => match after_word(&bytes[len..]) {
                Some(others) => Some((value, others)),
                None => None,
            },
            None => None,
        },
        None => None,
    }
}

/// A number below 2 ^ 64, and what is left of the line.
#[inline(always)]
pub fn large_first<'a>(rest: Option<&'a [u8]>) -> Option<(u64, Option<&'a [u8]>)>
    ensures { option_map (λ p. (p.0, words_of (option_copied p.1))) result
        ≡ read_first (number_of 0 18446744073709551615) (words_of (option_copied rest.entry)) }
{
    number_first(rest, 0, u64::MAX)
}

/// A number below 2 ^ 32, and what is left of the line.
#[inline(always)]
pub fn small_first<'a>(
    rest: Option<&'a [u8]>,
    least: u32,
    greatest: u32,
) -> Option<(u32, Option<&'a [u8]>)>
    ensures { option_map (λ p. (p.0, words_of (option_copied p.1))) result
        ≡ read_first (number_of least greatest) (words_of (option_copied rest.entry)) }
{
    match number_first(rest, u64::from(least), u64::from(greatest)) {
        Some((value, others)) => Some((value as u32, others)),
        None => None,
    }
}

/// The word that ends the line. None where other words follow it, or nothing is left.
pub fn last_word<'a>(rest: Option<&'a [u8]>) -> Option<&'a [u8]>
    ensures { option_copied result
        ≡ read_last (λ word. Some word) (words_of (option_copied rest.entry)) }
{
    match rest {
        Some(bytes) => match split_at(bytes, b' ') {
            (word, None) => Some(word),
            (_, Some(_)) => None,
        },
        None => None,
    }
}

/// A number that ends the line.
pub fn small_last(rest: Option<&[u8]>, least: u32, greatest: u32) -> Option<u32>
    ensures { result ≡ read_last (number_of least greatest) (words_of (option_copied rest.entry)) }
{
    match small_first(rest, least, greatest) {
        Some((value, others)) => match others {
            None => Some(value),
            Some(_) => None,
        },
        None => None,
    }
}
