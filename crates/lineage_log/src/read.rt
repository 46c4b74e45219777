// Reads a log.
ghost use Rattle.std.specs.Prelude.{◌≡◌, ◌≢◌, Err};
ghost use Rattle.lineage_log.specs.LogGrammar.{log_of};
ghost use Rattle.lineage_log.specs.Readings.{Gives};

use crate::laws::read_exactly;
use crate::log::Log;
use crate::log_reader::{next_line, reader_of_bytes};
use crate::log_stop::LogStop;
use log_lines::LogLine;
use std::alloc::Global;

/// Reads the text of a log, or tells its first faulty line.
pub fn read_log(alloc: Global, bytes: &[u8]) -> Result<Log, LogStop>
    ensures { result ≢ Err LogStop.Memory → result ≡ log_of bytes.now }
{
    read_exactly();
    Ok(Log::from_lines(read_lines(alloc, bytes)?))
}

fn read_lines(alloc: Global, bytes: &[u8]) -> Result<Vec<LogLine>, LogStop>
    ensures { Gives result (log_of bytes.now) }
{
    let mut lines = Vec::new(alloc);
    let mut reader = reader_of_bytes(alloc, bytes);
    while let Some(line) = next_line(alloc, &mut reader)? {
        lines.push(line)?;
    }
    Ok(lines)
}
