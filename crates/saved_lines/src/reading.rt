// Reads the line of a saved world that a text has.
ghost use Rattle.std.specs.Prelude.{◌≡◌, ◌∷◌, [], Some, IfOk, IfSome, option_and_then, option_copied, option_map};
ghost use Rattle.saved_lines.specs.Prelude.{genome_field, given};
ghost use Rattle.genome.specs.Genome as genome_spec;
ghost use Rattle.log_lines.specs.Kinds as kinds;
ghost use Rattle.log_lines.specs.Words.{read_first, words_of};
ghost use Rattle.saved_lines.specs.SavedFields.{marks, nops, signed};
ghost use Rattle.saved_lines.specs.SavedTables.{head_ranges, head_row, machine_ranges, machine_row, organism_ranges, organism_row, texts_row};
ghost use Rattle.saved_lines.specs.SavedForms.{values_of_line, values_of_organism};
ghost use Rattle.saved_lines.specs.SavedReading as reading;
ghost use Rattle.saved_lines.specs.SavedRows.{AreWithin, read_several, read_within};
ghost use Rattle.saved_lines.specs.SavedText as text;
ghost use Rattle.saved_lines.specs.SavedValues.{head_values};

use crate::fields;
use crate::range::Range;
use crate::ranges::{HEAD_RANGES, MACHINE_RANGES, ORGANISM_RANGES};
use crate::saved_line::{OrganismLine, SavedLine};
use crate::state_head::StateHead;
use avida_port::Memory;
use genome::Genome;
use label_search::Template;
use log_lines::{genome_last, last_word, split_at};
use logic_tasks::{Inputs, Tasks};
use mutations::Rates;
use numerals::number;
use std::alloc::Global;
use virtual_cpu::{CpuImage, Letters, Marks};

/// A number for each range, and what is left of the line.
fn numbers_first<'a, const N: usize>(
    rest: Option<&'a [u8]>,
    ranges: &[Range; N],
) -> Option<([u64; N], Option<&'a [u8]>)>
    ensures read { option_map (λ p. (p.0, words_of (option_copied p.1))) result
        ≡ read_within ranges.now (words_of (option_copied rest.entry)) }
    ensures within { IfSome result (λ p. AreWithin ranges.now p.0) }
{
    let mut numbers = [0; N];
    let mut left = rest;
    for at in 0..N {
        let (word, others) = split_at(left?, b' ');
        numbers[at] = number(ranges[at].least, ranges[at].greatest, word)?;
        left = others;
    }
    Some((numbers, left))
}

/// So many numbers of 32 bits, and what is left of the line.
fn signed_first<'a, const N: usize>(rest: Option<&'a [u8]>) -> Option<([i32; N], Option<&'a [u8]>)>
    ensures { option_map (λ p. (p.0, words_of (option_copied p.1))) result
        ≡ read_several signed.read N (words_of (option_copied rest.entry)) }
{
    let mut numbers = [0; N];
    let mut left = rest;
    for at in 0..N {
        let (word, others) = split_at(left?, b' ');
        numbers[at] = fields::signed(word)?;
        left = others;
    }
    Some((numbers, left))
}

/// The nops read last, and what is left of the line.
fn nops_first<'a>(rest: Option<&'a [u8]>) -> Option<(Template, Option<&'a [u8]>)>
    ensures { option_map (λ p. (p.0, words_of (option_copied p.1))) result
        ≡ read_first nops.read (words_of (option_copied rest.entry)) }
{
    let (word, others) = split_at(rest?, b' ');
    let nops = fields::nops(word)?;
    Some((nops, others))
}

/// Letters, and what is left of the line.
fn letters_first<'a>(
    alloc: Global,
    rest: Option<&'a [u8]>,
) -> Result<Option<(Letters, Option<&'a [u8]>)>, Memory>
    ensures { IfOk result (λ found.
        option_map (λ p. (p.0, words_of (option_copied p.1))) found
        ≡ read_first genome_field.read (words_of (option_copied rest.entry))) }
{
    match rest {
        Some(bytes) => {
            let (word, others) = split_at(bytes, b' ');
            match fields::letters(alloc, word)? {
                Some(letters) => Ok(Some((letters, others))),
                None => Ok(None),
            }
        }
        None => Ok(None),
    }
}

/// Marks, and what is left of the line.
fn marks_first<'a>(
    alloc: Global,
    rest: Option<&'a [u8]>,
) -> Result<Option<(Marks, Option<&'a [u8]>)>, Memory>
    ensures { IfOk result (λ found.
        option_map (λ p. (p.0, words_of (option_copied p.1))) found
        ≡ read_first marks.read (words_of (option_copied rest.entry))) }
{
    match rest {
        Some(bytes) => {
            let (word, others) = split_at(bytes, b' ');
            match fields::marks(alloc, word)? {
                Some(marks) => Ok(Some((marks, others))),
                None => Ok(None),
            }
        }
        None => Ok(None),
    }
}

/// The marks that end the line.
fn marks_last(alloc: Global, rest: Option<&[u8]>) -> Result<Option<Marks>, Memory>
    ensures { IfOk result (λ found. found
        ≡ kinds.read_last marks.read (words_of (option_copied rest.entry))) }
{
    match last_word(rest) {
        Some(word) => fields::marks(alloc, word),
        None => Ok(None),
    }
}

/// The head of the numbers of its line.
fn head_of(numbers: &[u64; 22]) -> StateHead
    requires { AreWithin head_ranges numbers.now }
    ensures { head_values result ≡ reading.head_of numbers.now }
{
    StateHead {
        width: numbers[1] as u32,
        height: numbers[2] as u32,
        update: numbers[3] as u32,
        next_id: numbers[4],
        seed: numbers[5],
        average_slices: numbers[6] as u32,
        death: numbers[7] == 1,
        age_limit: numbers[8] as u32,
        rates: Rates {
            copy: numbers[9] as u32,
            insert: numbers[10] as u32,
            delete: numbers[11] as u32,
            site_point: numbers[12] as u32,
            site_insert: numbers[13] as u32,
            site_delete: numbers[14] as u32,
        },
        prefer_empty: numbers[15] == 1,
        need_alloc: numbers[16] == 1,
        executed_percent: numbers[17] as u32,
        copied_percent: numbers[18] as u32,
        least_length: numbers[19] as u32,
        greatest_length: numbers[20] as u32,
        memory_limit: numbers[21] as u32,
    }
}

/// Whether the least length is not above the greatest, nor that above the limit of memory.
fn are_ordered(head: &StateHead) -> bool
    ensures { result ≡ reading.are_ordered (head_values head.now) }
{
    head.least_length <= head.greatest_length && head.greatest_length <= head.memory_limit
}

/// The head, where its lengths are in order.
fn ordered(head: StateHead) -> Option<StateHead>
    ensures { option_map head_values result
        ≡ given (reading.are_ordered (head_values head)) (head_values head) }
{
    if are_ordered(&head) { Some(head) } else { None }
}

#[inline(never)]
fn read_head(rest: Option<&[u8]>) -> Option<StateHead>
    ensures { option_map (λ head. text.Head (head_values head)) result
        ≡ option_and_then reading.saved_head_line
        (head_row.read (words_of (option_copied rest.entry))) }
{
    let (numbers, rest) = numbers_first(rest, &HEAD_RANGES)?;
    match rest {
        None => ordered(head_of(&numbers)),
        Some(_) => None,
    }
}

/// The organism of the numbers of its line and its genome.
fn organism_of(numbers: &[u64; 10], genome: Genome) -> OrganismLine
    requires { AreWithin organism_ranges numbers.now }
    ensures { text.Organism (values_of_organism result)
        ≡ reading.organism_of (numbers.now, genome_spec.letters genome) }
{
    OrganismLine {
        cell: numbers[0] as u32,
        id: numbers[1],
        merit: numbers[2],
        credited: Tasks::of_number(numbers[3] as u16),
        age: numbers[4],
        read: numbers[5],
        gestation: Tasks::of_number(numbers[6] as u16),
        inputs: Inputs::of([numbers[7] as u32, numbers[8] as u32, numbers[9] as u32]),
        genome,
    }
}

#[inline(never)]
fn read_organism(alloc: Global, rest: Option<&[u8]>) -> Result<Option<SavedLine>, Memory>
    ensures { IfOk result (λ found. option_map values_of_line found
        ≡ option_map reading.organism_of
        (organism_row.read (words_of (option_copied rest.entry)))) }
{
    let Some(found) = numbers_first(rest, &ORGANISM_RANGES) else {
        return Ok(None);
    };
    let (numbers, rest) = found;
    match genome_last(alloc, rest)? {
        Some(genome) => Ok(Some(SavedLine::Organism(organism_of(&numbers, genome)))),
        None => Ok(None),
    }
}

/// The four texts of a machine.
#[derive(Drop)]
struct Texts {
    memory: Letters,
    clean: Letters,
    executed: Marks,
    copied: Marks,
}

#[inline(never)]
fn read_texts(alloc: Global, rest: Option<&[u8]>) -> Result<Option<Texts>, Memory>
    ensures { IfOk result (λ found.
        option_map (λ t. (t.memory, (t.clean, (t.executed, t.copied)))) found
        ≡ texts_row.read (words_of (option_copied rest.entry))) }
{
    let Some((memory, rest)) = letters_first(alloc, rest)? else {
        return Ok(None);
    };
    let Some((clean, rest)) = letters_first(alloc, rest)? else {
        return Ok(None);
    };
    let Some((executed, rest)) = marks_first(alloc, rest)? else {
        return Ok(None);
    };
    match marks_last(alloc, rest)? {
        Some(copied) => Ok(Some(Texts {
            memory,
            clean,
            executed,
            copied,
        })),
        None => Ok(None),
    }
}

/// The place of the active stack.
fn active_of(numbers: &[u64; 6]) -> u8
    requires { AreWithin machine_ranges numbers.now }
    ensures { result ≡ reading.saved_number_at numbers.now 0 }
{
    numbers[0] as u8
}

/// The places of the heads.
fn heads_of(numbers: &[u64; 6]) -> [u32; 4]
    requires { AreWithin machine_ranges numbers.now }
    ensures { result ≡ reading.saved_number_at numbers.now 1
        ∷ reading.saved_number_at numbers.now 2
        ∷ reading.saved_number_at numbers.now 3
        ∷ reading.saved_number_at numbers.now 4
        ∷ [] }
{
    [
        numbers[1] as u32,
        numbers[2] as u32,
        numbers[3] as u32,
        numbers[4] as u32,
    ]
}

#[inline(never)]
fn read_machine(alloc: Global, rest: Option<&[u8]>) -> Result<Option<SavedLine>, Memory>
    ensures { IfOk result (λ found. option_map values_of_line found
        ≡ option_map reading.machine_of
        (machine_row.read (words_of (option_copied rest.entry)))) }
{
    let Some(found) = signed_first::<3>(rest) else {
        return Ok(None);
    };
    let (registers, rest) = found;
    let Some(found) = numbers_first(rest, &MACHINE_RANGES) else {
        return Ok(None);
    };
    let (numbers, rest) = found;
    let Some((nops, rest)) = nops_first(rest) else {
        return Ok(None);
    };
    let Some(found) = signed_first::<10>(rest) else {
        return Ok(None);
    };
    let (first, rest) = found;
    let Some(found) = signed_first::<10>(rest) else {
        return Ok(None);
    };
    let (second, rest) = found;
    let heads = heads_of(&numbers);
    match read_texts(alloc, rest)? {
        Some(
            Texts {
                memory,
                clean,
                executed,
                copied,
            },
        ) => Ok(Some(SavedLine::Machine(CpuImage {
            registers,
            active: active_of(&numbers),
            heads,
            pending: numbers[5] == 1,
            nops,
            first,
            second,
            memory,
            clean,
            executed,
            copied,
        }))),
        None => Ok(None),
    }
}

/// The number that ends the line.
fn count_last(rest: Option<&[u8]>) -> Option<u64>
    ensures { result
        ≡ (kinds.last kinds.large).read (words_of (option_copied rest.entry)) }
{
    number(0, u64::MAX, last_word(rest)?)
}

fn read_form(alloc: Global, mark: u8, rest: Option<&[u8]>) -> Result<Option<SavedLine>, Memory>
    ensures { IfOk result (λ found. option_map values_of_line found
        ≡ reading.read_form (mark ∷ []) (words_of (option_copied rest.entry))) }
{
    match mark {
        b'S' => match read_head(rest) {
            Some(head) => Ok(Some(SavedLine::Head(head))),
            None => Ok(None),
        },
        b'O' => read_organism(alloc, rest),
        b'M' => read_machine(alloc, rest),
        b'Z' => match count_last(rest) {
            Some(organisms) => Ok(Some(SavedLine::Count(organisms))),
            None => Ok(None),
        },
        _ => Ok(None),
    }
}

/// Reads a line of a saved world, without its newline. None exactly where the text has none of the
/// four forms.
pub fn read_saved_line(alloc: Global, piece: &[u8]) -> Result<Option<SavedLine>, Memory>
    ensures { IfOk result (λ found. option_map values_of_line found
        ≡ reading.saved_line_of piece.now) }
{
    let (mark, rest) = split_at(piece, b' ');
    match mark {
        [] => Ok(None),
        [mark] => read_form(alloc, *mark, rest),
        [_, _, ..] => Ok(None),
    }
}
