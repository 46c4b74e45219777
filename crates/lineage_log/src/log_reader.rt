// Reads the lines of a log one after another.
ghost use Rattle.std.specs.Prelude.{◌≡◌, ◌≢◌, ◌∷◌, ◌==◌, Err, IfErr, IfOk, OnOk};
ghost use Rattle.lineage_log.specs.Prelude.{birth_values, line_values, slice_split};
ghost use Rattle.log_lines.specs.LineReading.{StartsWith};
ghost use Rattle.lineage_log.specs.LogGrammar.{last_piece};
ghost use Rattle.lineage_log.specs.LogReading.{left_of, place_of, EndsAt, GivesNext, GoesOn, IsAtStart, ReadsLine, TellsNext};
ghost use Rattle.lineage_log.specs.Readings.{Tells, stop_of};
ghost use Rattle.lineage_log.specs.Order.{told};

use crate::log_stop::LogStop;
use crate::place::{LogPlace, tell};
use crate::reason::Reason;
use crate::refusal::{OUT_OF_ORDER, Refusal};
use log_lines::{Birth, Front, LogLine, read_front, read_line};
use std::alloc::Global;

/// A log that is read line by line. It keeps none of the lines.
#[derive(Drop)]
pub struct LogReader<'a> {
    /// The bytes that are left.
    pub rest: &'a [u8],
    /// The number of the next line, from 1.
    pub number: u64,
    /// Where the log stands.
    pub place: LogPlace,
    /// The last birth that was read, whose room the next one takes.
    pub birth: Birth,
}

/// A log at its start.
pub fn reader_of_bytes(alloc: Global, bytes: &[u8]) -> LogReader<'_>
    ensures { IsAtStart bytes.now result }
{
    LogReader {
        rest: bytes,
        number: 1,
        place: LogPlace::Before,
        birth: Birth::blank(alloc),
    }
}

fn stop_for(refusal: Refusal, line: u64) -> LogStop
    ensures { result ≡ stop_of line refusal }
{
    match refusal {
        Refusal::Memory => LogStop::Memory,
        Refusal::Faulty(Reason::BadOrder) => LogStop::BadOrder { line },
        Refusal::Faulty(Reason::UnknownParent) => LogStop::UnknownParent { line },
        Refusal::Faulty(Reason::BadChange) => LogStop::BadChange { line },
    }
}

/// The end of the bytes, behind the last newline.
fn end_at(number: u64, place: &LogPlace, piece: &[u8]) -> Result<(), LogStop>
    ensures { EndsAt result (place_of place.now)
        (last_piece number (place_of place.now) piece.now) }
{
    if !piece.is_empty() {
        return Err(LogStop::BadLine { line: number });
    }
    match place {
        LogPlace::After(_) => Ok(()),
        _ => Err(LogStop::Unended { line: number }),
    }
}

/// Goes on behind a line.
fn pass<'a>(reader: &mut LogReader<'a>, behind: &'a [u8]) -> Result<(), LogStop>
    ensures ok { OnOk result (GoesOn reader.old reader.new behind.now) }
    ensures err { IfErr result (λ stop. stop ≡ LogStop.Memory) }
{
    let Some(next) = reader.number.checked_add(1) else {
        return Err(LogStop::Memory);
    };
    reader.number = next;
    reader.rest = behind;
    Ok(())
}

/// Tells the line in front of what is left, and goes on behind it.
fn take_line<'a>(
    alloc: Global,
    reader: &mut LogReader<'a>,
    line: &LogLine,
    behind: &'a [u8],
) -> Result<(), LogStop>
    requires front { StartsWith reader.old.rest.now (line_values line.now) behind.now }
    ensures ok { OnOk result (ReadsLine (line_values line.now) reader.old reader.new) }
    ensures fault { IfErr result (λ stop. stop ≢ LogStop.Memory → left_of reader.old ≡ Err stop) }
{
    if let Err(refusal) = tell(alloc, &mut reader.place, line) {
        return Err(stop_for(refusal, reader.number));
    }
    pass(reader, behind)
}

/// A birth more. After an error the place is not used again.
fn tell_birth(alloc: Global, place: &mut LogPlace, birth: &Birth) -> Result<(), Refusal>
    ensures { Tells (λ done. place_of place.new) result
        (told (place_of place.old) (birth_values birth.now)) }
{
    match place {
        LogPlace::Within(reader) => reader.birth(
            alloc,
            birth.id,
            birth.parent,
            birth.update,
            birth.cell,
            birth.over,
            &birth.origin,
        ),
        LogPlace::Before | LogPlace::After(_) => Err(OUT_OF_ORDER),
    }
}

/// Tells the birth that was read last, whose line is in front of what is left, and goes on behind it.
fn take_birth<'a>(
    alloc: Global,
    reader: &mut LogReader<'a>,
    behind: &'a [u8],
) -> Result<(), LogStop>
    requires front { StartsWith reader.old.rest.now (birth_values reader.old.birth) behind.now }
    ensures ok { OnOk result (ReadsLine (birth_values reader.old.birth) reader.old reader.new) }
    ensures fault { IfErr result (λ stop. stop ≢ LogStop.Memory → left_of reader.old ≡ Err stop) }
{
    if let Err(refusal) = tell_birth(alloc, &mut reader.place, &reader.birth) {
        return Err(stop_for(refusal, reader.number));
    }
    pass(reader, behind)
}

/// Reads and tells the line whose text is in front of what is left, and goes on behind it.
fn take_text<'a>(
    alloc: Global,
    reader: &mut LogReader<'a>,
    text: &[u8],
    behind: &'a [u8],
) -> Result<LogLine, LogStop>
    requires front { slice_split (λ b. b == 10) reader.old.rest.now
        ≡ text.now ∷ slice_split (λ b. b == 10) behind.now }
    ensures ok { IfOk result (λ line. ReadsLine (line_values line) reader.old reader.new) }
    ensures fault { IfErr result (λ stop. stop ≢ LogStop.Memory → left_of reader.old ≡ Err stop) }
{
    let Some(line) = read_line(alloc, text)? else {
        return Err(LogStop::BadLine {
            line: reader.number,
        });
    };
    take_line(alloc, reader, &line, behind)?;
    Ok(line)
}

/// The next line, or None at the end of a whole log. After an error the reader is not used again.
pub fn next_line(alloc: Global, reader: &mut LogReader<'_>) -> Result<Option<LogLine>, LogStop>
    ensures { GivesNext result reader.old reader.new }
{
    match read_front(alloc, &mut reader.birth, reader.rest)? {
        Front::Birth(behind) => {
            let line = reader.birth.take_line(alloc);
            take_line(alloc, reader, &line, behind)?;
            Ok(Some(line))
        }
        Front::Text(text, behind) => Ok(Some(take_text(alloc, reader, text, behind)?)),
        Front::NoNewline => {
            end_at(reader.number, &reader.place, reader.rest)?;
            Ok(None)
        }
    }
}

/// Tells the next line, and says whether there was one: none is left at the end of a whole log.
/// After an error the reader is not used again.
pub fn tell_next(alloc: Global, reader: &mut LogReader<'_>) -> Result<bool, LogStop>
    ensures { TellsNext result reader.old reader.new }
{
    match read_front(alloc, &mut reader.birth, reader.rest)? {
        Front::Birth(behind) => {
            take_birth(alloc, reader, behind)?;
            Ok(true)
        }
        Front::Text(text, behind) => {
            take_text(alloc, reader, text, behind)?;
            Ok(true)
        }
        Front::NoNewline => {
            end_at(reader.number, &reader.place, reader.rest)?;
            Ok(false)
        }
    }
}
