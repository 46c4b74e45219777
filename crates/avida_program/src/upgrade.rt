// The command `upgrade`.
ghost use Rattle.avida_program.specs.Prelude.{change, WritesAll};
ghost use Rattle.lineage_log.specs.LogGrammar.{lines_text};
ghost use Rattle.lineage_log.specs.Readings.{lines_of};
ghost use Rattle.avida_program.specs.Endings.{ReadsAndWrites};
ghost use Rattle.avida_program.specs.Input.{log_input_of};
ghost use Rattle.avida_program.specs.Output.{upgrade_text};

use crate::call_error::{CallError, ended_by};
use crate::input::read_lines;
use crate::puts::put_rest;
use avida_port::{Sink, SinkStop, Source};
use lineage_log::{Log, LogLine, write_line};
use std::alloc::Global;
use written_texts::{Piece, write_text};

fn write_lines<O: Sink>(alloc: Global, lines: &[LogLine], out: &mut O) -> Result<(), SinkStop>
    ensures { WritesAll (O.seen out.old) (O.seen out.new) (lines_text (lines_of lines.now)) result }
{
    let mut piece = Piece::new();
    let mut text = Vec::new(alloc);
    for line in lines {
        text.clear();
        write_line(line, &mut text)?;
        write_text(&mut piece, &text, out)?;
    }
    put_rest(&piece, out)
}

fn write_upgraded<O: Sink>(alloc: Global, mut log: Log, out: &mut O) -> Result<(), SinkStop>
    ensures { WritesAll (O.seen out.old) (O.seen out.new) (upgrade_text log) result }
{
    log.upgrade();
    let lines = log.into_vec();
    write_lines(alloc, &lines, out)
}

/// Reads a log, and writes its lines in the newest version of the format.
pub fn upgrade<S: Source, O: Sink>(
    alloc: Global,
    source: &mut S,
    out: &mut O,
) -> Result<(), CallError>
    ensures { ReadsAndWrites log_input_of upgrade_text
        (change (S.seen source.old) (S.seen source.new)) (change (O.seen out.old) (O.seen out.new))
        result }
{
    let log = read_lines(alloc, source)?;
    ended_by(write_upgraded(alloc, log, out))
}
