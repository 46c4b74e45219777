// Reads the fields of a line that are more than a number.
ghost use Rattle.std.specs.Prelude.{◌≡◌, ◌∷◌, [], ◌&&◌, Some, None, IfOk, option_copied, option_map, length, if◌then◌else◌};
ghost use Rattle.log_lines.specs.Prelude.{letter_of_byte, written_in, is_genome_length, change_may_follow, in_order};
ghost use Rattle.genome.specs.Genome as genome_spec;
ghost use Rattle.log_lines.specs.Fields.{each, genome_of_word, list_of};
ghost use Rattle.log_lines.specs.Kinds.{base_field, change_field, changes_field, read_change, read_lettered};
ghost use Rattle.log_lines.specs.Words.{ToChange, pieces_of, read_first};

use crate::words::split_at;
use avida_port::Memory;
use genome::{GREATEST_LENGTH, Genome, LEAST_LENGTH};
use instruction_set::Letter;
use mutations::{Base, Change, Changes};
use numerals::small_number;
use std::alloc::Global;

/// The letters of a word, where each byte is one.
fn letters_of(alloc: Global, word: &[u8]) -> Result<Option<Vec<Letter>>, Memory>
    ensures { IfOk result (λ found. option_map (λ v. v.items) found
        ≡ each letter_of_byte word.now) }
{
    let mut letters = Vec::with_capacity(alloc, word.len())?;
    let mut are_all = true;
    // A loop without another way out takes sixteen bytes at a time.
    for byte in word {
        let letter = Letter::from_byte(*byte);
        are_all &= letter.is_some();
        letters.push_reserved(letter.unwrap_or_default());
    }
    Ok(if are_all { Some(letters) } else { None })
}

fn is_genome_length(len: usize) -> bool
    ensures { result ≡ is_genome_length len }
{
    LEAST_LENGTH as usize <= len && len <= GREATEST_LENGTH as usize
}

/// The letters of the genome that a word spells, a byte each. None exactly where it spells none.
pub fn genome_letters(alloc: Global, word: &[u8]) -> Result<Option<Vec<Letter>>, Memory>
    ensures { IfOk result (λ found. option_map (λ v. v.items) found ≡ genome_of_word word.now) }
{
    if !is_genome_length(word.len()) {
        return Ok(None);
    }
    letters_of(alloc, word)
}

/// The genome that a word spells.
pub fn genome(alloc: Global, word: &[u8]) -> Result<Option<Genome>, Memory>
    ensures { IfOk result (λ found. option_map genome_spec.letters found
        ≡ genome_of_word word.now) }
{
    match genome_letters(alloc, word)? {
        Some(letters) => Ok(genome_from(letters)),
        None => Ok(None),
    }
}

fn genome_from(letters: Vec<Letter>) -> Option<Genome>
    ensures { option_map genome_spec.letters result
        ≡ (if is_genome_length (length letters.items) then Some letters.items else None) }
{
    match Genome::from_vec(letters) {
        Ok(genome) => Some(genome),
        Err(_) => None,
    }
}

/// The base of a birth: `=` for the parent's genome, or the letters of a written one.
pub fn base(alloc: Global, word: &[u8]) -> Result<Option<Base>, Memory>
    ensures { IfOk result (λ found. option_map written_in found ≡ base_field.read word.now) }
{
    match word {
        [b'='] => Ok(Some(Base::Parent)),
        _ => match genome(alloc, word)? {
            Some(genome) => Ok(Some(Base::Written(genome))),
            None => Ok(None),
        },
    }
}

/// The place and the letter of a text such as `4k`.
fn lettered(rest: &[u8]) -> Option<(u32, Letter)>
    ensures { (make : ToChange) → option_map (λ p. make p.0 p.1) result
        ≡ read_lettered make rest.now }
{
    match rest {
        [front @ .., last] => match small_number(0, u32::MAX, front) {
            Some(at) => match Letter::from_byte(*last) {
                Some(letter) => Some((at, letter)),
                None => None,
            },
            None => None,
        },
        [] => None,
    }
}

/// The change with this mark, such as `p`, and the text behind it.
fn change_of(mark: u8, rest: &[u8]) -> Option<Change>
    ensures { result ≡ read_change (mark ∷ rest.now) }
{
    match mark {
        b'p' => match lettered(rest) {
            Some((at, letter)) => Some(Change::Point { at, letter }),
            None => None,
        },
        b'i' => match lettered(rest) {
            Some((at, letter)) => Some(Change::Insert { at, letter }),
            None => None,
        },
        b'd' => match small_number(0, u32::MAX, rest) {
            Some(at) => Some(Change::Delete { at }),
            None => None,
        },
        _ => None,
    }
}

/// One change, such as `p4k` or `d9`.
fn item(word: &[u8]) -> Option<Change>
    ensures { result ≡ read_change word.now }
{
    match word {
        [mark, rest @ ..] => change_of(*mark, rest),
        [] => None,
    }
}

/// The first change of a list, and what is left behind its comma.
fn first_change(rest: &[u8]) -> Option<(Change, Option<&[u8]>)>
    ensures { option_map (λ p. (p.0, pieces_of 44 (option_copied p.1))) result
        ≡ read_first read_change (pieces_of 44 (Some rest.now)) }
{
    let (piece, others) = split_at(rest, b',');
    match item(piece) {
        Some(one) => Some((one, others)),
        None => None,
    }
}

/// The changes that stand between commas, in any order.
fn item_list(alloc: Global, word: &[u8]) -> Result<Option<Vec<Change>>, Memory>
    ensures { IfOk result (λ found. option_map (λ v. v.items) found
        ≡ each read_change (pieces_of 44 (Some word.now))) }
{
    let mut found = Vec::new(alloc);
    let mut left = Some(word);
    while let Some(rest) = left {
        let Some((one, others)) = first_change(rest) else {
            return Ok(None);
        };
        found.push(one)?;
        left = others;
    }
    Ok(Some(found))
}

/// The changes in any order, or a dash for none.
fn items(alloc: Global, word: &[u8]) -> Result<Option<Vec<Change>>, Memory>
    ensures { IfOk result (λ found. option_map (λ v. v.items) found
        ≡ (list_of change_field).read word.now) }
{
    match word {
        [b'-'] => Ok(Some(Vec::new(alloc))),
        _ => item_list(alloc, word),
    }
}

fn may_follow(first: &Change, next: &Change) -> bool
    ensures { result ≡ change_may_follow first.now next.now }
{
    match (first, next) {
        (Change::Point { at, .. }, Change::Point { at: behind, .. }) => at < behind,
        (Change::Point { .. }, _) => true,
        (Change::Insert { .. }, Change::Point { .. }) => false,
        (Change::Insert { .. }, _) => true,
        (Change::Delete { .. }, Change::Delete { .. }) => true,
        (Change::Delete { .. }, _) => false,
    }
}

/// Whether points with rising places come first, then insertions, then deletions.
pub fn is_in_order(changes: &[Change]) -> bool
    ensures { result ≡ in_order changes.now }
{
    let mut rest = changes;
    while let [first, next, ..] = rest {
        if !may_follow(first, next) {
            return false;
        }
        rest = &rest[1..];
    }
    true
}

/// The changes of a birth, in the order that a log asks for.
pub fn changes(alloc: Global, word: &[u8]) -> Result<Option<Changes>, Memory>
    ensures { IfOk result (λ found. found ≡ changes_field.read word.now) }
{
    match items(alloc, word)? {
        Some(found) => {
            if is_in_order(&found) {
                Ok(Some(Changes::from_vec(found)))
            } else {
                Ok(None)
            }
        }
        None => Ok(None),
    }
}

/// No changes. The room of `spare` is kept.
pub fn no_changes(spare: Vec<Change>) -> Changes
    ensures { result ≡ [] }
{
    let mut none = spare;
    none.clear();
    Changes::from_vec(none)
}
