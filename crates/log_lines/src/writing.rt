// Writes the lines of a log, each into the bytes that it is given.
ghost use Rattle.std.specs.Prelude.{◌≡◌, ◌++◌, ◌∷◌, [], Option, decimal, codes, take, Ok, OnOk, OnErr};
ghost use Rattle.log_lines.specs.Prelude.{byte_of, record_of, written_in};
ghost use Rattle.genome.specs.Genome as genome_spec;
ghost use Rattle.log_lines.specs.Fields.{genome_field, list_of};
ghost use Rattle.log_lines.specs.Kinds.{base_field, change_field, changes_field, death_row, over_field, rate_name};
ghost use Rattle.log_lines.specs.Line.{Birth, Count, End, Injected, Rate, Start, line_values, change_text};
ghost use Rattle.log_lines.specs.LineText.{form_text, line_text, numbers_text, row_text, spaced_word, words_text, Keeps};

use crate::log_line::LogLine;
use crate::stats::Stats;
use avida_port::Memory;
use genome::{Genome, letters_text};
use instruction_set::Letter;
use itoa::write_digits;
use mutations::{Base, Change, Changes, Origin, RateName};

/// Room for a byte and the digits of any number.
const DIGITS: usize = 21;

/// Appends a byte. When memory runs out `out` stays as it was.
pub fn write_byte(value: u8, out: &mut Vec<u8>) -> Result<(), Memory>
    ensures ok { OnOk result (out.new.items ≡ out.old.items ++ value ∷ []) }
    ensures err { OnErr result (out.new.items ≡ out.old.items) }
{
    match out.push(value) {
        Ok(()) => Ok(()),
        Err(_) => Err(Memory),
    }
}

/// Appends bytes.
fn text(out: &mut Vec<u8>, bytes: &[u8]) -> Result<(), Memory>
    ensures ok { OnOk result (out.new.items ≡ out.old.items ++ bytes.now) }
    ensures err { OnErr result (out.new.items ≡ out.old.items) }
{
    match out.extend_from_slice(bytes) {
        Ok(()) => Ok(()),
        Err(_) => Err(Memory),
    }
}

/// Appends a byte, and a number in decimal digits behind it. When memory runs out `out` stays as it
/// was.
pub fn write_number(before: u8, value: u64, out: &mut Vec<u8>) -> Result<(), Memory>
    ensures ok { OnOk result (out.new.items ≡ out.old.items ++ before ∷ decimal value) }
    ensures err { OnErr result (out.new.items ≡ out.old.items) }
{
    let mut room = [0u8; DIGITS];
    let start = write_digits(value, &mut room, DIGITS) - 1;
    room[start] = before;
    text(out, &room[start..])
}

/// Appends a space, and the letters of a genome.
fn letters(out: &mut Vec<u8>, genome: &Genome) -> Result<(), Memory>
    ensures ok { OnOk result (out.new.items ≡ out.old.items
        ++ spaced_word (genome_field.text (genome_spec.letters genome.now))) }
    ensures err { OnErr result (Keeps out.old.items out.new.items) }
{
    write_byte(b' ', out)?;
    letters_text(genome, out)
}

fn over(out: &mut Vec<u8>, over: Option<u64>) -> Result<(), Memory>
    ensures ok { OnOk result (out.new.items ≡ out.old.items ++ spaced_word (over_field.text over)) }
    ensures err { OnErr result (out.new.items ≡ out.old.items) }
{
    match over {
        Some(id) => write_number(b' ', id, out),
        None => text(out, b" -"),
    }
}

fn base(out: &mut Vec<u8>, base: &Base) -> Result<(), Memory>
    ensures ok { OnOk result (out.new.items ≡ out.old.items
        ++ spaced_word (base_field.text (written_in base.now))) }
    ensures err { OnErr result (Keeps out.old.items out.new.items) }
{
    match base {
        Base::Parent => text(out, b" ="),
        Base::Written(genome) => letters(out, genome),
    }
}

/// Appends a mark, a place and a letter, such as `p4k`.
#[tactic(auto, using(crate::proofs::KeptLemmas::keeps_front))]
fn lettered(out: &mut Vec<u8>, mark: u8, at: u32, letter: Letter) -> Result<(), Memory>
    ensures ok { OnOk result (out.new.items
        ≡ out.old.items ++ mark ∷ (decimal at ++ byte_of letter ∷ [])) }
    ensures err { OnErr result (Keeps out.old.items out.new.items) }
{
    write_number(mark, u64::from(at), out)?;
    write_byte(letter.byte(), out)
}

fn bare_change(out: &mut Vec<u8>, change: Change) -> Result<(), Memory>
    ensures ok { OnOk result (out.new.items ≡ out.old.items ++ change_text change) }
    ensures err { OnErr result (Keeps out.old.items out.new.items) }
{
    match change {
        Change::Point { at, letter } => lettered(out, b'p', at, letter),
        Change::Insert { at, letter } => lettered(out, b'i', at, letter),
        Change::Delete { at } => write_number(b'd', u64::from(at), out),
    }
}

/// Appends a byte, and a change behind it.
#[tactic(auto, using(crate::proofs::KeptLemmas::keeps_front))]
fn change(out: &mut Vec<u8>, before: u8, change: Change) -> Result<(), Memory>
    ensures ok { OnOk result (out.new.items ≡ out.old.items ++ before ∷ change_text change) }
    ensures err { OnErr result (Keeps out.old.items out.new.items) }
{
    write_byte(before, out)?;
    bare_change(out, change)
}

/// Appends the changes of a birth, the first behind a space and each other behind a comma.
#[tactic(auto, using(crate::proofs::KeptLemmas::keeps_front))]
fn changes(out: &mut Vec<u8>, changes: &Changes) -> Result<(), Memory>
    ensures ok { OnOk result (out.new.items ≡ out.old.items
        ++ spaced_word ((list_of change_field).text changes.now)) }
    ensures err { OnErr result (Keeps out.old.items out.new.items) }
{
    if changes.len() == 0 {
        return text(out, b" -");
    }
    for at in 0..changes.len() {
        if let Some(next) = changes.get(at) {
            let before = if at == 0 { b' ' } else { b',' };
            change(out, before, *next)?;
        }
    }
    Ok(())
}

/// Appends numbers in decimal digits, each behind a space. When memory runs out `out` begins with
/// what it held before.
#[tactic(auto, using(crate::proofs::KeptLemmas::keeps_front))]
pub fn write_numbers(numbers: &[u64], out: &mut Vec<u8>) -> Result<(), Memory>
    ensures ok { OnOk result (out.new.items ≡ out.old.items ++ numbers_text numbers.now) }
    ensures err { OnErr result (Keeps out.old.items out.new.items) }
{
    for number in numbers {
        write_number(b' ', *number, out)?;
    }
    Ok(())
}

/// Appends the mark of a line, and numbers behind it.
#[tactic(auto, using(crate::proofs::KeptLemmas::keeps_front))]
fn marked(out: &mut Vec<u8>, mark: u8, numbers: &[u64]) -> Result<(), Memory>
    ensures ok { OnOk result (out.new.items ≡ out.old.items ++ mark ∷ numbers_text numbers.now) }
    ensures err { OnErr result (Keeps out.old.items out.new.items) }
{
    write_byte(mark, out)?;
    write_numbers(numbers, out)
}

/// Appends the base and the changes of a birth, each behind a space. When memory runs out `out`
/// begins with what it held before.
#[tactic(auto, using(crate::proofs::KeptLemmas::keeps_front))]
pub fn write_record(origin: &Origin, out: &mut Vec<u8>) -> Result<(), Memory>
    ensures ok { OnOk result (out.new.items ≡ out.old.items
        ++ words_text (base_field.text (written_in origin.now.base)
        ∷ changes_field.text origin.now.changes ∷ [])) }
    ensures err { OnErr result (Keeps out.old.items out.new.items) }
{
    base(out, &origin.base)?;
    changes(out, &origin.changes)
}

#[tactic(auto, using(crate::proofs::KeptLemmas::keeps_front))]
fn start(
    out: &mut Vec<u8>,
    version: u32,
    width: u32,
    height: u32,
    cell: u32,
    genome: &Genome,
) -> Result<(), Memory>
    ensures ok { OnOk result (out.new.items ≡ out.old.items
        ++ row_text (Start version width height cell (genome_spec.letters genome.now))) }
    ensures err { OnErr result (Keeps out.old.items out.new.items) }
{
    let numbers = [
        u64::from(version),
        u64::from(width),
        u64::from(height),
        u64::from(cell),
    ];
    marked(out, b'L', &numbers)?;
    letters(out, genome)
}

/// Appends the line of a death or of a clearing, without its newline.
fn death(out: &mut Vec<u8>, mark: u8, id: u64, update: u32, cell: u32) -> Result<(), Memory>
    ensures ok { OnOk result (out.new.items ≡ out.old.items
        ++ form_text mark death_row (id, (update, cell))) }
    ensures err { OnErr result (Keeps out.old.items out.new.items) }
{
    let numbers = [id, u64::from(update), u64::from(cell)];
    marked(out, mark, &numbers)
}

#[tactic(auto, using(crate::proofs::KeptLemmas::keeps_front))]
fn birth(
    out: &mut Vec<u8>,
    id: u64,
    parent: u64,
    update: u32,
    cell: u32,
    who: Option<u64>,
    origin: &Origin,
) -> Result<(), Memory>
    ensures ok { OnOk result (out.new.items ≡ out.old.items
        ++ row_text (Birth id parent update cell who (record_of origin.now))) }
    ensures err { OnErr result (Keeps out.old.items out.new.items) }
{
    let numbers = [id, parent, u64::from(update), u64::from(cell)];
    marked(out, b'B', &numbers)?;
    over(out, who)?;
    write_record(origin, out)
}

#[tactic(auto, using(crate::proofs::KeptLemmas::keeps_front))]
fn injected(
    out: &mut Vec<u8>,
    id: u64,
    update: u32,
    cell: u32,
    who: Option<u64>,
    genome: &Genome,
) -> Result<(), Memory>
    ensures ok { OnOk result (out.new.items ≡ out.old.items
        ++ row_text (Injected id update cell who (genome_spec.letters genome.now))) }
    ensures err { OnErr result (Keeps out.old.items out.new.items) }
{
    let numbers = [id, u64::from(update), u64::from(cell)];
    marked(out, b'I', &numbers)?;
    over(out, who)?;
    letters(out, genome)
}

/// Appends the name of a rate behind a space.
fn named(out: &mut Vec<u8>, name: RateName) -> Result<(), Memory>
    ensures ok { OnOk result (out.new.items ≡ out.old.items ++ spaced_word (rate_name.text name)) }
    ensures err { OnErr result (Keeps out.old.items out.new.items) }
{
    write_byte(b' ', out)?;
    text(out, name.name().as_bytes())
}

#[tactic(auto, using(crate::proofs::KeptLemmas::keeps_front))]
fn rate(out: &mut Vec<u8>, update: u32, name: RateName, ppm: u32) -> Result<(), Memory>
    ensures ok { OnOk result (out.new.items ≡ out.old.items
        ++ row_text (Rate update name ppm)) }
    ensures err { OnErr result (Keeps out.old.items out.new.items) }
{
    let numbers = [u64::from(update)];
    marked(out, b'R', &numbers)?;
    named(out, name)?;
    write_number(b' ', u64::from(ppm), out)
}

#[tactic(auto, using(crate::proofs::KeptLemmas::keeps_front))]
fn count(out: &mut Vec<u8>, stats: &Stats) -> Result<(), Memory>
    ensures ok { OnOk result (out.new.items ≡ out.old.items
        ++ row_text (Count stats.now)) }
    ensures err { OnErr result (Keeps out.old.items out.new.items) }
{
    let numbers = [
        u64::from(stats.update),
        stats.living,
        stats.births,
        stats.deaths,
        stats.genotypes,
        stats.merit,
    ];
    marked(out, b'U', &numbers)?;
    write_numbers(&stats.tasks, out)
}

fn end(out: &mut Vec<u8>, updates: u32) -> Result<(), Memory>
    ensures ok { OnOk result (out.new.items ≡ out.old.items ++ row_text (End updates)) }
    ensures err { OnErr result (Keeps out.old.items out.new.items) }
{
    let numbers = [u64::from(updates)];
    marked(out, b'E', &numbers)
}

/// Appends the line without its newline.
fn row(line: &LogLine, out: &mut Vec<u8>) -> Result<(), Memory>
    ensures ok { OnOk result (out.new.items ≡ out.old.items ++ row_text (line_values line.now)) }
    ensures err { OnErr result (Keeps out.old.items out.new.items) }
{
    match line {
        LogLine::Start {
            version,
            width,
            height,
            cell,
            genome,
        } => start(out, *version, *width, *height, *cell, genome),
        LogLine::Death { id, update, cell } => death(out, b'D', *id, *update, *cell),
        LogLine::Birth {
            id,
            parent,
            update,
            cell,
            over,
            origin,
        } => birth(out, *id, *parent, *update, *cell, *over, origin),
        LogLine::Injected {
            id,
            update,
            cell,
            over,
            genome,
        } => injected(out, *id, *update, *cell, *over, genome),
        LogLine::Cleared { id, update, cell } => death(out, b'X', *id, *update, *cell),
        LogLine::Rate { update, name, ppm } => rate(out, *update, *name, *ppm),
        LogLine::Count(stats) => count(out, stats),
        LogLine::End { updates } => end(out, *updates),
    }
}

/// Ends a row that begins at this place, or takes back what was written of it.
fn finish(row: Result<(), Memory>, start: usize, out: &mut Vec<u8>) -> Result<(), Memory>
    ensures row { OnOk result (row ≡ Ok tt) }
    ensures ok { OnOk result (out.new.items ≡ out.old.items ++ codes "\n") }
    ensures err { OnErr result (out.new.items ≡ take start out.old.items) }
{
    if row.is_ok() && write_byte(b'\n', out).is_ok() {
        return Ok(());
    }
    out.truncate(start);
    Err(Memory)
}

/// Appends the text of a line, with its newline. When memory runs out `out` stays as it was.
pub fn write_line(line: &LogLine, out: &mut Vec<u8>) -> Result<(), Memory>
    ensures ok { OnOk result (out.new.items ≡ out.old.items ++ line_text (line_values line.now)) }
    ensures err { OnErr result (out.new.items ≡ out.old.items) }
{
    let start = out.len();
    let row = row(line, out);
    finish(row, start, out)
}

/// Appends the text of a birth's line, with its newline. When memory runs out `out` stays as it
/// was.
pub fn write_birth(
    id: u64,
    parent: u64,
    update: u32,
    cell: u32,
    over: Option<u64>,
    origin: &Origin,
    out: &mut Vec<u8>,
) -> Result<(), Memory>
    ensures ok { OnOk result (out.new.items ≡ out.old.items
        ++ line_text (Birth id parent update cell over (record_of origin.now))) }
    ensures err { OnErr result (out.new.items ≡ out.old.items) }
{
    let start = out.len();
    let row = birth(out, id, parent, update, cell, over, origin);
    finish(row, start, out)
}

/// Appends the text of an injection's line, with its newline. When memory runs out `out` stays as
/// it was.
pub fn write_injection(
    id: u64,
    update: u32,
    cell: u32,
    over: Option<u64>,
    genome: &Genome,
    out: &mut Vec<u8>,
) -> Result<(), Memory>
    ensures ok { OnOk result (out.new.items ≡ out.old.items
        ++ line_text (Injected id update cell over (genome_spec.letters genome.now))) }
    ensures err { OnErr result (out.new.items ≡ out.old.items) }
{
    let start = out.len();
    let row = injected(out, id, update, cell, over, genome);
    finish(row, start, out)
}
