// Reads the line that a text has.
ghost use Rattle.std.specs.Prelude.{◌≡◌, ◌∷◌, [], Some, IfOk, option_copied, option_map};
ghost use Rattle.log_lines.specs.Prelude.{written_in};
ghost use Rattle.genome.specs.Genome as genome_spec;
ghost use Rattle.log_lines.specs.Fields as fields_spec;
ghost use Rattle.log_lines.specs.Kinds.{base_field, changes_field, over_field, record_row, read_last};
ghost use Rattle.log_lines.specs.Words.{read_arrival, read_first, read_newborn, read_opening, words_of};
ghost use Rattle.log_lines.specs.Line.{line_values};
ghost use Rattle.log_lines.specs.Forms.{birth_form, forms, injected_form, start_form};
ghost use Rattle.log_lines.specs.LineReading.{line_of, read_as, read_by};

use crate::fields::{base, changes, genome};
use crate::log_line::{LAST_VERSION, LogLine};
use crate::plain_lines::read_plain;
use crate::words::{after_word, large_first, last_word, small_first, split_at};
use avida_port::Memory;
use genome::Genome;
use mutations::{Base, Changes, Origin};
use random_streams::GREATEST_SIDE;
use std::alloc::Global;

/// The genome that ends the line. None where other words follow it, or the last word spells none.
pub fn genome_last(alloc: Global, rest: Option<&[u8]>) -> Result<Option<Genome>, Memory>
    ensures { IfOk result (λ found. option_map genome_spec.letters found
        ≡ read_last fields_spec.genome_of_word (words_of (option_copied rest.entry))) }
{
    match last_word(rest) {
        Some(word) => genome(alloc, word),
        None => Ok(None),
    }
}

/// The changes that end the line.
fn changes_last(alloc: Global, rest: Option<&[u8]>) -> Result<Option<Changes>, Memory>
    ensures { IfOk result (λ found. found
        ≡ read_last changes_field.read (words_of (option_copied rest.entry))) }
{
    match last_word(rest) {
        Some(word) => changes(alloc, word),
        None => Ok(None),
    }
}

#[inline(always)]
fn over_first<'a>(rest: Option<&'a [u8]>) -> Option<(Option<u64>, Option<&'a [u8]>)>
    ensures { option_map (λ p. (p.0, words_of (option_copied p.1))) result
        ≡ read_first over_field.read (words_of (option_copied rest.entry)) }
{
    match rest {
        Some(bytes) => over_in(bytes),
        None => None,
    }
}

#[inline(always)]
fn over_in(bytes: &[u8]) -> Option<(Option<u64>, Option<&[u8]>)>
    ensures { option_map (λ p. (p.0, words_of (option_copied p.1))) result
        ≡ read_first over_field.read (words_of (Some bytes.now)) }
{
    match bytes {
        [first, behind @ ..] => {
            if *first == b'-' {
                match after_word(behind) {
                    Some(others) => Some((None, others)),
                    None => None,
                }
            } else {
                match large_first(Some(bytes)) {
                    Some((id, others)) => Some((Some(id), others)),
                    None => None,
                }
            }
        }
        [] => None,
    }
}

/// When and where an organism came, and who stood there and so died.
#[derive(Clone, Copy)]
struct Arrival {
    update: u32,
    cell: u32,
    over: Option<u64>,
}

#[inline(always)]
fn arrival_first<'a>(rest: Option<&'a [u8]>) -> Option<(Arrival, Option<&'a [u8]>)>
    ensures { option_map (λ p. (p.0, words_of (option_copied p.1))) result
        ≡ read_arrival (words_of (option_copied rest.entry)) }
{
    let (update, rest) = small_first(rest, 0, u32::MAX)?;
    let (cell, rest) = small_first(rest, 0, u32::MAX)?;
    let (over, rest) = over_first(rest)?;
    Some((Arrival { update, cell, over }, rest))
}

/// The fields of a first line before its genome.
#[derive(Clone, Copy)]
struct Opening {
    version: u32,
    width: u32,
    height: u32,
    cell: u32,
}

fn opening_first<'a>(rest: Option<&'a [u8]>) -> Option<(Opening, Option<&'a [u8]>)>
    ensures { option_map (λ p. (p.0, words_of (option_copied p.1))) result
        ≡ read_opening (words_of (option_copied rest.entry)) }
{
    let (version, rest) = small_first(rest, 1, LAST_VERSION)?;
    let (width, rest) = small_first(rest, 1, GREATEST_SIDE)?;
    let (height, rest) = small_first(rest, 1, GREATEST_SIDE)?;
    let (cell, rest) = small_first(rest, 0, u32::MAX)?;
    let opening = Opening {
        version,
        width,
        height,
        cell,
    };
    Some((opening, rest))
}

#[inline(never)]
fn read_start(alloc: Global, rest: Option<&[u8]>) -> Result<Option<LogLine>, Memory>
    ensures { IfOk result (λ found. option_map line_values found
        ≡ read_as start_form (words_of (option_copied rest.entry))) }
{
    let Some((opening, rest)) = opening_first(rest) else {
        return Ok(None);
    };
    match genome_last(alloc, rest) {
        Ok(Some(genome)) => Ok(Some(LogLine::Start {
            version: opening.version,
            width: opening.width,
            height: opening.height,
            cell: opening.cell,
            genome,
        })),
        Ok(None) => Ok(None),
        Err(Memory) => Err(Memory),
    }
}

/// A base, and what is left of the line.
fn base_first<'a>(
    alloc: Global,
    rest: Option<&'a [u8]>,
) -> Result<Option<(Base, Option<&'a [u8]>)>, Memory>
    ensures { IfOk result (λ found.
        option_map (λ p. (written_in p.0, words_of (option_copied p.1))) found
        ≡ read_first base_field.read (words_of (option_copied rest.entry))) }
{
    match rest {
        Some(bytes) => base_in(alloc, bytes),
        None => Ok(None),
    }
}

/// As `base_first`.
fn base_in(alloc: Global, bytes: &[u8]) -> Result<Option<(Base, Option<&[u8]>)>, Memory>
    ensures { IfOk result (λ found.
        option_map (λ p. (written_in p.0, words_of (option_copied p.1))) found
        ≡ read_first base_field.read (words_of (Some bytes.now))) }
{
    let (word, others) = split_at(bytes, b' ');
    match base(alloc, word)? {
        Some(value) => Ok(Some((value, others))),
        None => Ok(None),
    }
}

/// The record that ends a birth's line.
fn origin_last(alloc: Global, rest: Option<&[u8]>) -> Result<Option<Origin>, Memory>
    ensures { IfOk result (λ found. option_map (λ o. (written_in o.base, o.changes)) found
        ≡ record_row.read (words_of (option_copied rest.entry))) }
{
    let Some((base, rest)) = base_first(alloc, rest)? else {
        return Ok(None);
    };
    let Some(changes) = changes_last(alloc, rest)? else {
        return Ok(None);
    };
    Ok(Some(Origin { base, changes }))
}

/// The fields of a birth before its record.
#[derive(Clone, Copy)]
struct Newborn {
    id: u64,
    parent: u64,
    arrival: Arrival,
}

fn newborn_first<'a>(rest: Option<&'a [u8]>) -> Option<(Newborn, Option<&'a [u8]>)>
    ensures { option_map (λ p. (p.0, words_of (option_copied p.1))) result
        ≡ read_newborn (words_of (option_copied rest.entry)) }
{
    let (id, rest) = large_first(rest)?;
    let (parent, rest) = large_first(rest)?;
    let (arrival, rest) = arrival_first(rest)?;
    let newborn = Newborn {
        id,
        parent,
        arrival,
    };
    Some((newborn, rest))
}

fn read_birth(alloc: Global, rest: Option<&[u8]>) -> Result<Option<LogLine>, Memory>
    ensures { IfOk result (λ found. option_map line_values found
        ≡ read_as birth_form (words_of (option_copied rest.entry))) }
{
    let Some((newborn, rest)) = newborn_first(rest) else {
        return Ok(None);
    };
    let Some(origin) = origin_last(alloc, rest)? else {
        return Ok(None);
    };
    Ok(Some(LogLine::Birth {
        id: newborn.id,
        parent: newborn.parent,
        update: newborn.arrival.update,
        cell: newborn.arrival.cell,
        over: newborn.arrival.over,
        origin,
    }))
}

#[inline(never)]
fn read_injected(alloc: Global, rest: Option<&[u8]>) -> Result<Option<LogLine>, Memory>
    ensures { IfOk result (λ found. option_map line_values found
        ≡ read_as injected_form (words_of (option_copied rest.entry))) }
{
    let Some((id, rest)) = large_first(rest) else {
        return Ok(None);
    };
    let Some((arrival, rest)) = arrival_first(rest) else {
        return Ok(None);
    };
    match genome_last(alloc, rest) {
        Ok(Some(genome)) => Ok(Some(LogLine::Injected {
            id,
            update: arrival.update,
            cell: arrival.cell,
            over: arrival.over,
            genome,
        })),
        Ok(None) => Ok(None),
        Err(Memory) => Err(Memory),
    }
}

fn read_form(alloc: Global, mark: u8, rest: Option<&[u8]>) -> Result<Option<LogLine>, Memory>
    ensures { IfOk result (λ found. option_map line_values found
        ≡ read_by forms (mark ∷ []) (words_of (option_copied rest.entry))) }
{
    match mark {
        b'B' => read_birth(alloc, rest),
        b'L' => read_start(alloc, rest),
        b'I' => read_injected(alloc, rest),
        _ => Ok(read_plain(mark, rest)),
    }
}

/// Reads the text of a line, which stands before its newline. None exactly where the text has none
/// of the eight forms.
pub fn read_line(alloc: Global, text: &[u8]) -> Result<Option<LogLine>, Memory>
    ensures { IfOk result (λ found. option_map line_values found ≡ line_of text.now) }
{
    match text {
        [mark, part, rest @ ..] => {
            if *part == b' ' && *mark != b' ' {
                read_form(alloc, *mark, Some(rest))
            } else {
                Ok(None)
            }
        }
        _ => Ok(None),
    }
}
