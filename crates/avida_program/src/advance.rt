// The command `advance`.
ghost use Rattle.std.specs.Prelude.{◌≡◌, ◌≤◌, ◌+◌, IfOk};
ghost use Rattle.avida_program.specs.Prelude.{saved_state_after, change, WritesAll};
ghost use Rattle.avida_program.specs.Output.{advanced_text};
ghost use Rattle.avida_program.specs.Endings.{ReadsAndWrites};
ghost use Rattle.avida_program.specs.Input.{resume_input_of};

use crate::call_error::{CallError, ended_by};
use crate::input::read_state_for;
use crate::resume::write_updates;
use crate::saved_world::write_state;
use avida_port::{Gate, Memory, Sink, SinkStop, Source};
use command_line::FurtherUpdates;
use std::alloc::Global;
use std::sync::Wait;
use std::thread::Threads;
use world_core::State;
use written_texts::NoSink;

/// So many updates more, without their texts.
fn pass_updates<R: Threads + Wait + Sync, G: Gate + Sync>(
    rt: &R,
    alloc: Global,
    state: State,
    more: u32,
    gate: &G,
) -> Result<State, Memory>
    requires { state.head.update + more ≤ 1000000 }
    ensures { IfOk result (λ after. after ≡ saved_state_after state more) }
{
    let mut out = NoSink;
    match write_updates(rt, alloc, state, more, &mut out, gate) {
        Ok(after) => Ok(after),
        Err(SinkStop::Memory) => Err(Memory),
        Err(SinkStop::Fault) => unreachable!(),
    }
}

/// Writes the saved world that is there so many updates later.
fn advance_and_write<R: Threads + Wait + Sync, O: Sink, G: Gate + Sync>(
    rt: &R,
    alloc: Global,
    state: State,
    more: u32,
    out: &mut O,
    gate: &G,
) -> Result<(), SinkStop>
    requires { state.head.update + more ≤ 1000000 }
    ensures { WritesAll (O.seen out.old) (O.seen out.new) (advanced_text state more) result }
{
    let after = pass_updates(rt, alloc, state, more, gate)?;
    let written = write_state(alloc, &after, out);
    drop(after);
    written
}

/// Reads a saved world, and writes the one that is there so many updates later.
pub fn advance<R: Threads + Wait + Sync, S: Source, O: Sink, G: Gate + Sync>(
    rt: &R,
    alloc: Global,
    asked: FurtherUpdates,
    source: &mut S,
    out: &mut O,
    gate: &G,
) -> Result<(), CallError>
    requires { (1 ≤ asked.workers) × (asked.workers ≤ 64) }
    ensures { ReadsAndWrites (resume_input_of asked.more) (λ state. advanced_text state asked.more)
        (change (S.seen source.old) (S.seen source.new)) (change (O.seen out.old) (O.seen out.new))
        result }
{
    let state = read_state_for(rt, alloc, source, asked.more, asked.workers)?;
    ended_by(advance_and_write(rt, alloc, state, asked.more, out, gate))
}
