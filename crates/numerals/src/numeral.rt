// Reads numbers, each of which has one spelling.
ghost use Rattle.std.specs.Prelude.{◌≡◌, ◌≤◌, ◌<◌, ◌^◌, ◌+◌, ◌*◌, length, true, false, MatchOption, IfSome, option_map};
ghost use Rattle.std.specs.Str.Parse.{digits_value};
ghost use Rattle.numerals.specs.Numeral.{digits_len, is_numeral, leading_digits, number_of};

/// The greatest number that a digit may follow, if it is below 6.
const GREATEST_TENTH: u64 = u64::MAX / 10;

/// Most numbers have fewer digits.
const SHORT: usize = 8;

/// The number with a digit more, where it fits.
fn with_digit(value: u64, digit: u8) -> Option<u64>
    requires { digit < 10 }
    ensures { MatchOption result (2 ^ 64 ≤ value * 10 + digit)
        (λ longer. longer ≡ value * 10 + digit) }
{
    if value < GREATEST_TENTH {
        Some(value * 10 + u64::from(digit))
    } else {
        with_last_digit(value, digit)
    }
}

/// As `with_digit`, where the number may not fit.
#[cold]
fn with_last_digit(value: u64, digit: u8) -> Option<u64>
    requires digit { digit < 10 }
    requires large { GREATEST_TENTH ≤ value }
    ensures { MatchOption result (2 ^ 64 ≤ value * 10 + digit)
        (λ longer. longer ≡ value * 10 + digit) }
{
    if value == GREATEST_TENTH && digit < 6 {
        Some(value * 10 + u64::from(digit))
    } else {
        None
    }
}

/// The number that the digits in front of the text write, and how many they are, where it fits.
#[tactic(auto, using(crate::proofs::DigitLemmas::short_fits))]
#[inline(always)]
fn leading_value(text: &[u8]) -> Option<(u64, usize)>
    ensures { MatchOption result
        (2 ^ 64 ≤ digits_value 10 (leading_digits text.now))
        (λ found. (found.0 ≡ digits_value 10 (leading_digits text.now))
        × (found.1 ≡ digits_len text.now)) }
{
    if text.len() < SHORT {
        return Some(short_value(text));
    }
    let mut value: u64 = 0;
    // So many digits surely fit, and a loop of a fixed length costs less.
    for len in 0..SHORT {
        let digit = u64::from(text[len]).wrapping_sub(u64::from(b'0'));
        if digit > 9 {
            return Some((value, len));
        }
        value = value * 10 + digit;
    }
    long_value(text)
}

/// As `leading_value`, for a text so short that its digits surely fit.
#[tactic(auto, using(crate::proofs::DigitLemmas::short_fits))]
#[inline(never)]
fn short_value(text: &[u8]) -> (u64, usize)
    requires { length text.now < 8 }
    ensures value { result.0 ≡ digits_value 10 (leading_digits text.now) }
    ensures len { result.1 ≡ digits_len text.now }
{
    let mut value: u64 = 0;
    for len in 0..text.len() {
        let digit = u64::from(text[len]).wrapping_sub(u64::from(b'0'));
        if digit > 9 {
            return (value, len);
        }
        value = value * 10 + digit;
    }
    (value, text.len())
}

/// As `leading_value`, for digits of any number.
#[inline(never)]
fn long_value(text: &[u8]) -> Option<(u64, usize)>
    ensures { MatchOption result
        (2 ^ 64 ≤ digits_value 10 (leading_digits text.now))
        (λ found. (found.0 ≡ digits_value 10 (leading_digits text.now))
        × (found.1 ≡ digits_len text.now)) }
{
    let mut value: u64 = 0;
    for (at, byte) in text.iter().enumerate() {
        let digit = *byte;
        if digit < b'0' || digit > b'9' {
            return Some((value, at));
        }
        match with_digit(value, digit - b'0') {
            Some(longer) => value = longer,
            None => return None,
        }
    }
    Some((value, text.len()))
}

/// Whether so many digits in front of the text have no needless zero in front.
fn is_plain(text: &[u8], len: usize) -> bool
    requires { len ≡ digits_len text.now }
    ensures { result ≡ is_numeral (leading_digits text.now) }
{
    match len {
        0 => false,
        1 => true,
        _ => text[0] != b'0',
    }
}

/// The number that the digits in front of the text spell, with no leading zero, and how many digits
/// they are. None where they spell no number, or one outside `least` to `greatest`.
#[inline(always)]
pub fn leading_number(least: u64, greatest: u64, text: &[u8]) -> Option<(u64, usize)>
    ensures number { option_map (λ found. found.0) result
        ≡ number_of least greatest (leading_digits text.now) }
    ensures len { IfSome result (λ found. found.1 ≡ digits_len text.now) }
    ensures within { IfSome result (λ found. found.1 ≤ length text.now) }
    ensures bound { IfSome result (λ found. found.0 ≤ greatest) }
{
    let (value, len) = leading_value(text)?;
    if is_plain(text, len) && least <= value && value <= greatest {
        Some((value, len))
    } else {
        None
    }
}

/// The number that the text spells in decimal digits, with no sign and no leading zero. None for
/// every other text, and for a number outside `least` to `greatest`.
pub fn number(least: u64, greatest: u64, text: &[u8]) -> Option<u64>
    ensures number { result ≡ number_of least greatest text.now }
    ensures bound { IfSome result (λ n. n ≤ greatest) }
{
    match leading_number(least, greatest, text) {
        Some((value, len)) => { if len == text.len() { Some(value) } else { None } }
        None => None,
    }
}

/// As `number`, for numbers below 2^32.
pub fn small_number(least: u32, greatest: u32, text: &[u8]) -> Option<u32>
    ensures number { result ≡ number_of least greatest text.now }
{
    match number(u64::from(least), u64::from(greatest), text) {
        Some(value) => Some(value as u32),
        None => None,
    }
}
