// Who lives at the end of a log.
ghost use Rattle.std.specs.Prelude.{◌≡◌, ◌≢◌, ◌≤◌, ◌∷◌, [], Some, Ok, Err, IfOk, IsSome, length, option_and_then, slice_get};
ghost use Rattle.lineage_log.specs.LogGrammar.{IsGoodLog, log_of};
ghost use Rattle.lineage_log.specs.Readings.{lines_of, reader_of};
ghost use Rattle.lineage_log.specs.Order.{After, Before, told_all};
ghost use Rattle.lineage_log.specs.Replay.{LeavesReader, living_residents_of, replay_of, resident_at, residents_from};
ghost use Rattle.lineage_log.specs.Reader.{EachIsKept, kept_genomes};

use crate::laws::read_exactly;
use crate::living::{Living, Livings};
use crate::log::Log;
use crate::log_reader::{reader_of_bytes, tell_next};
use crate::log_stop::LogStop;
use crate::place::{LogPlace, into_reader, tell};
use crate::reader::Reader;
use crate::refusal::Refusal;
use avida_port::Memory;
use log_lines::LogLine;
use std::alloc::Global;

/// Replays a log: the organisms that live at its end, in order of cells, each with its genome.
pub fn replay(alloc: Global, log: &Log) -> Result<Livings, Memory>
    ensures { IfOk result (λ livings. livings ≡ replay_of log.now) }
{
    let reader = reader_after(alloc, log.lines())?;
    living_in(alloc, &reader)
}

fn reader_after(alloc: Global, lines: &[LogLine]) -> Result<Reader, Memory>
    requires { IsGoodLog (lines_of lines.now) }
    ensures { IfOk result
        (λ reader. told_all Before (lines_of lines.now) ≡ Ok (After (reader_of reader))) }
{
    let mut place = LogPlace::Before;
    for line in lines {
        match tell(alloc, &mut place, line) {
            Ok(()) => {}
            Err(Refusal::Memory) => return Err(Memory),
            Err(Refusal::Faulty(_)) => unreachable!(),
        }
    }
    Ok(into_reader(place))
}

/// Replays the bytes of a log, or tells its first faulty line: as `read_log` and then `replay`, but
/// no line is kept.
pub fn living_at_end(alloc: Global, bytes: &[u8]) -> Result<Livings, LogStop>
    ensures { result ≢ Err LogStop.Memory → result ≡ living_residents_of (log_of bytes.now) }
{
    read_exactly();
    let reader = reader_at_end(alloc, bytes)?;
    Ok(living_in(alloc, &reader)?)
}

fn reader_at_end(alloc: Global, bytes: &[u8]) -> Result<Reader, LogStop>
    ensures { LeavesReader result (log_of bytes.now) }
{
    let mut log = reader_of_bytes(alloc, bytes);
    while tell_next(alloc, &mut log)? {}
    Ok(into_reader(log.place))
}

fn living_in(alloc: Global, reader: &Reader) -> Result<Livings, Memory>
    requires kept { EachIsKept reader.now.standing reader.now.people }
    requires few { length reader.now.standing ≤ 65536 }
    ensures { IfOk result (λ livings. livings
        ≡ residents_from 0 reader.now.standing (kept_genomes reader.now.people)) }
{
    let mut livings = Vec::new(alloc);
    for cell in 0..reader.standing.cells() {
        if let Some(id) = reader.standing.get(cell) {
            livings.push(living_at(alloc, reader, cell as u32, id)?)?;
        }
    }
    Ok(Livings::from_vec(livings))
}

/// Who stands in a cell, with a genome of its own.
fn living_at(alloc: Global, reader: &Reader, cell: u32, id: u64) -> Result<Living, Memory>
    requires { IsSome (option_and_then (λ found. found) (slice_get reader.now.people id)) }
    ensures { IfOk result (λ living. living ∷ []
        ≡ resident_at cell (Some id) (kept_genomes reader.now.people) []) }
{
    let genome = reader.people.get(id).unwrap().copy(alloc)?;
    Ok(Living { cell, id, genome })
}
