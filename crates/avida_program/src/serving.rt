// The whole program.
ghost use Rattle.std.specs.Prelude.{map, string_bytes};
ghost use Rattle.avida_program.specs.Prelude.{change};
ghost use Rattle.command_line.specs.CommandLine.{HasNumbersInRange, command_of};
ghost use Rattle.avida_program.specs.Endings.{TellsOf};
ghost use Rattle.avida_program.specs.Commands.{CarriesOut, Obeys, Serves};

use crate::Status;
use crate::advance::advance;
use crate::bench::bench;
use crate::call_error::CallError;
use crate::fault_line::line_of;
use crate::laws::inputs_are_read_one_way;
use crate::lineage::lineage;
use crate::neighbours::landscape;
use crate::replay::replay;
use crate::resume::resume;
use crate::run::run;
use crate::save::save;
use crate::seeds::assay;
use crate::trace::trace;
use crate::tree::tree;
use crate::upgrade::upgrade;
use avida_port::{Gate, Sink, Source};
use command_line::{Command, Refused, read_words};
use std::alloc::Global;
use std::sync::Wait;
use std::thread::Threads;
use std::time::Clock;
use world_core::World;

/// Writes the fault line to `err`. A failure there changes no status.
fn write_fault_line<E: Sink>(err: &mut E, ended: &Result<(), CallError>)
    ensures { TellsOf (change (E.seen err.old) (E.seen err.new)) ended.now }
{
    if let Err(error) = ended {
        let line = line_of(error);
        let _ = err.put(line.as_slice());
    }
}

/// Calls the function of the command.
fn carry_out<
    R: Threads + Wait + Clock + Sync,
    S: Source,
    O: Sink + Send,
    W: Sink + Send,
    G: Gate + Sync,
>(
    rt: &R,
    alloc: Global,
    command: Command,
    source: &mut S,
    out: &mut O,
    watch: &mut W,
    last: &mut Option<World>,
    gate: &G,
) -> Result<(), CallError>
    requires { HasNumbersInRange command }
    ensures { CarriesOut command (record {
      source = change (S.seen source.old) (S.seen source.new);
      out = change (O.seen out.old) (O.seen out.new);
      watch = change (W.seen watch.old) (W.seen watch.new);
      last = change last.old last.new;
    }) result }
{
    inputs_are_read_one_way();
    match command {
        Command::Trace(asked) => trace(alloc, asked, source, out),
        Command::Run(asked) => run(rt, alloc, asked, source, out, watch, last, gate),
        Command::Lineage(asked) => lineage(rt, alloc, asked, source, out, last, gate),
        Command::Bench(asked) => bench(rt, alloc, asked, out, last, gate),
        Command::Assay(asked) => assay(rt, alloc, asked, source, out, gate),
        Command::Save { workers } => save(rt, alloc, workers, source, out, gate),
        Command::Resume(asked) => resume(rt, alloc, asked, source, out, gate),
        Command::Advance(asked) => advance(rt, alloc, asked, source, out, gate),
        Command::Replay => replay(alloc, source, out),
        Command::Upgrade => upgrade(alloc, source, out),
        Command::Tree => tree(alloc, source, out),
        Command::Landscape { steps } => landscape(rt, alloc, steps, source, out),
    }
}

/// Carries out the command that the words give.
fn obey<
    R: Threads + Wait + Clock + Sync,
    S: Source,
    O: Sink + Send,
    W: Sink + Send,
    G: Gate + Sync,
>(
    rt: &R,
    alloc: Global,
    words: &[String],
    source: &mut S,
    out: &mut O,
    watch: &mut W,
    last: &mut Option<World>,
    gate: &G,
) -> Result<(), CallError>
    ensures { Obeys (command_of (map string_bytes words.now)) (record {
      source = change (S.seen source.old) (S.seen source.new);
      out = change (O.seen out.old) (O.seen out.new);
      watch = change (W.seen watch.old) (W.seen watch.new);
      last = change last.old last.new;
    }) result }
{
    match read_words(alloc, words) {
        Ok(command) => carry_out(rt, alloc, command, source, out, watch, last, gate),
        Err(Refused::BadWords) => Err(CallError::BadWords),
        Err(Refused::Memory) => Err(CallError::Memory),
    }
}

/// All that the program does. The words say which command runs, and the status says how it ended.
/// It may wait and start threads, since a world interns genomes and a run may have a watcher. The
/// functions of `trace`, `replay`, `upgrade` and `tree` aren't handed `rt`, and that of `landscape`
/// may only start threads, so these commands return.
pub fn serve<
    R: Threads + Wait + Clock + Sync,
    S: Source,
    O: Sink + Send,
    W: Sink + Send,
    E: Sink,
    G: Gate + Sync,
>(
    rt: &R,
    alloc: Global,
    words: &[String],
    source: &mut S,
    out: &mut O,
    watch: &mut W,
    err: &mut E,
    last: &mut Option<World>,
    gate: &G,
) -> Status
    ensures serves { Serves (command_of (map string_bytes words.now)) (record {
      source = change (S.seen source.old) (S.seen source.new);
      out = change (O.seen out.old) (O.seen out.new);
      watch = change (W.seen watch.old) (W.seen watch.new);
      last = change last.old last.new;
    }) (change (E.seen err.old) (E.seen err.new)) result }
{
    let ended = obey(rt, alloc, words, source, out, watch, last, gate);
    write_fault_line(err, &ended);
    Status::of(&ended)
}
