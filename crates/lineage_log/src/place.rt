// Where a log stands between two lines.
ghost use Rattle.std.specs.Prelude.{◌≡◌, Ok};
ghost use Rattle.lineage_log.specs.Prelude.{End, line_values};
ghost use Rattle.lineage_log.specs.Order.{After, Before, IsWhole, Within, told};
ghost use Rattle.lineage_log.specs.Readings.{Tells, reader_of};
ghost use Rattle.lineage_log.specs.LogReading.{place_of};

use crate::reader::Reader;
use crate::refusal::{OUT_OF_ORDER, Refusal};
use log_lines::LogLine;
use std::alloc::Global;
use std::mem;

#[derive(Drop)]
pub enum LogPlace {
    /// Before the first line.
    Before,
    /// Behind the first line.
    Within(Reader),
    /// Behind the last line.
    After(Reader),
}

/// One line more. After an error the place is not used again.
pub fn tell(alloc: Global, place: &mut LogPlace, line: &LogLine) -> Result<(), Refusal>
    ensures { Tells (λ done. place_of place.new) result
        (told (place_of place.old) (line_values line.now)) }
{
    if let LogLine::End { updates } = line {
        return tell_last(place, *updates);
    }
    match place {
        LogPlace::Before => {
            *place = LogPlace::Within(tell_first(alloc, line)?);
            Ok(())
        }
        LogPlace::Within(reader) => reader.tell(alloc, line),
        LogPlace::After(_) => Err(OUT_OF_ORDER),
    }
}

fn tell_first(alloc: Global, line: &LogLine) -> Result<Reader, Refusal>
    ensures { Tells (λ reader. Within (reader_of reader)) result
        (told Before (line_values line.now)) }
{
    match line {
        LogLine::Start {
            version,
            width,
            height,
            cell,
            genome,
        } => Reader::open(alloc, *version, *width, *height, *cell, genome),
        _ => Err(OUT_OF_ORDER),
    }
}

fn tell_last(place: &mut LogPlace, updates: u32) -> Result<(), Refusal>
    ensures { Tells (λ done. place_of place.new) result (told (place_of place.old) (End updates)) }
{
    match mem::replace(place, LogPlace::Before) {
        LogPlace::Within(reader) => {
            if reader.ends(updates) {
                *place = LogPlace::After(reader);
                Ok(())
            } else {
                Err(OUT_OF_ORDER)
            }
        }
        LogPlace::Before | LogPlace::After(_) => Err(OUT_OF_ORDER),
    }
}

/// The reader behind the last line.
pub fn into_reader(place: LogPlace) -> Reader
    requires { IsWhole (Ok (place_of place)) }
    ensures { place_of place ≡ After (reader_of result) }
{
    match place {
        LogPlace::After(reader) => reader,
        LogPlace::Within(_reader) => unreachable!(),
        LogPlace::Before => unreachable!(),
    }
}
