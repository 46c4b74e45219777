// Reads the fields of a line that are more than a number.
ghost use Rattle.std.specs.Prelude.{◌≡◌, IfOk, option_map, pos};
ghost use Rattle.saved_lines.specs.Prelude.{is_nop, number_of};
ghost use Rattle.log_lines.specs.Fields as fields_spec;
ghost use Rattle.saved_lines.specs.SavedFields as saved_fields;

use avida_port::Memory;
use instruction_set::Letter;
use label_search::{LONGEST_TEMPLATE, Template};
use log_lines::genome_letters;
use numerals::small_number;
use std::alloc::Global;
use virtual_cpu::{Letters, Marks};

/// The number behind a minus.
fn below_zero(digits: &[u8]) -> Option<i32>
    ensures { result ≡ option_map saved_fields.below_zero (number_of 1 2147483648 digits.now) }
{
    let size = small_number(1, 1 << 31, digits)?;
    Some(-1 - (size - 1) as i32)
}

/// The number without a minus.
fn not_below_zero(word: &[u8]) -> Option<i32>
    ensures { result ≡ option_map pos (number_of 0 2147483647 word.now) }
{
    let size = small_number(0, i32::MAX as u32, word)?;
    Some(size as i32)
}

/// A number of 32 bits; one below 0 has a minus.
pub fn signed(word: &[u8]) -> Option<i32>
    ensures { result ≡ saved_fields.read_signed word.now }
{
    match word {
        [b'-', digits @ ..] => below_zero(digits),
        [_, ..] => not_below_zero(word),
        [] => None,
    }
}

/// The letters of a word, as many as a genome may have.
pub fn letters(alloc: Global, word: &[u8]) -> Result<Option<Letters>, Memory>
    ensures { IfOk result (λ found. found ≡ fields_spec.genome_of_word word.now) }
{
    Ok(genome_letters(alloc, word)?.map(|letters| Letters::from_vec(letters)))
}

/// The place that a digit is of.
fn mark_of(byte: u8) -> Option<bool>
    ensures { result ≡ saved_fields.mark_of byte }
{
    match byte {
        b'1' => Some(true),
        b'0' => Some(false),
        _ => None,
    }
}

/// The place of each digit, where each byte is one.
fn marks_of(alloc: Global, word: &[u8]) -> Result<Option<Vec<bool>>, Memory>
    ensures { IfOk result (λ found. option_map (λ v. v.items) found
        ≡ fields_spec.each saved_fields.mark_of word.now) }
{
    let mut marks = Vec::with_capacity(alloc, word.len())?;
    for byte in word {
        match mark_of(*byte) {
            Some(mark) => marks.push_reserved(mark),
            None => return Ok(None),
        }
    }
    Ok(Some(marks))
}

/// A digit for each place, of which there is at least one.
pub fn marks(alloc: Global, word: &[u8]) -> Result<Option<Marks>, Memory>
    ensures { IfOk result (λ found. found ≡ saved_fields.marks.read word.now) }
{
    if word.is_empty() {
        return Ok(None);
    }
    match marks_of(alloc, word)? {
        Some(marks) => Ok(Some(Marks::from_vec(marks))),
        None => Ok(None),
    }
}

fn is_nop(letter: Letter) -> bool
    ensures { result ≡ is_nop letter }
{
    matches!(letter, Letter::NopA | Letter::NopB | Letter::NopC)
}

/// From one to ten nops.
fn nops_of(word: &[u8]) -> Option<Template>
    ensures { result ≡ saved_fields.some_nops word.now }
{
    let count = word.len();
    if count == 0 || count > LONGEST_TEMPLATE {
        return None;
    }
    let mut nops = Template::none();
    for byte in word {
        let letter = Letter::from_byte(*byte)?;
        if !is_nop(letter) {
            return None;
        }
        nops.note(letter);
    }
    Some(nops)
}

/// The nops of a word, or a dash for none.
pub fn nops(word: &[u8]) -> Option<Template>
    ensures { result ≡ saved_fields.read_nops word.now }
{
    match word {
        [b'-'] => Some(Template::none()),
        _ => nops_of(word),
    }
}
