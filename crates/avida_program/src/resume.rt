// The command `resume`.
ghost use Rattle.std.specs.Prelude.{◌≡◌, ◌≤◌, ◌<◌, ◌+◌, IfOk};
ghost use Rattle.avida_program.specs.Prelude.{continued_text, later_texts, next_state, next_text, saved_state_after, end_text, change, WritesAll};
ghost use Rattle.avida_program.specs.Endings.{ReadsAndWrites};
ghost use Rattle.avida_program.specs.Input.{resume_input_of};

use crate::call_error::{CallError, ended_by};
use crate::input::read_state_for;
use crate::puts::put_text;
use avida_port::{Gate, Sink, SinkStop, Source};
use command_line::FurtherUpdates;
use log_lines::{LogLine, write_line};
use std::alloc::Global;
use std::sync::Wait;
use std::thread::Threads;
use world_core::State;
use written_texts::kept;

/// One update, whose text is put whole.
fn write_update<R: Threads + Wait + Sync, O: Sink, G: Gate + Sync>(
    rt: &R,
    alloc: Global,
    state: State,
    out: &mut O,
    gate: &G,
) -> Result<State, SinkStop>
    requires { state.head.update < 1000000 }
    ensures state { IfOk result (λ next. next ≡ next_state state) }
    ensures text { WritesAll (O.seen out.old) (O.seen out.new) (next_text state) result }
{
    let (next, text) = state.advance(rt, alloc, gate)?;
    let put = put_text(&text, out);
    kept(next, put)
}

/// So many updates more, with their texts.
pub fn write_updates<R: Threads + Wait + Sync, O: Sink, G: Gate + Sync>(
    rt: &R,
    alloc: Global,
    mut state: State,
    more: u32,
    out: &mut O,
    gate: &G,
) -> Result<State, SinkStop>
    requires { state.head.update + more ≤ 1000000 }
    ensures state { IfOk result (λ after. after ≡ saved_state_after state more) }
    ensures text { WritesAll (O.seen out.old) (O.seen out.new) (later_texts state more) result }
{
    for _ in 0..more {
        state = write_update(rt, alloc, state, out, gate)?;
    }
    Ok(state)
}

/// Puts the last line of a log that ends with this update.
#[tactic(auto, unfolding(world_rules::specs::LogText::end_text))]
fn write_end<O: Sink>(alloc: Global, updates: u32, out: &mut O) -> Result<(), SinkStop>
    ensures { WritesAll (O.seen out.old) (O.seen out.new) (end_text updates) result }
{
    let mut line = Vec::new(alloc);
    write_line(&LogLine::End { updates }, &mut line)?;
    put_text(&line, out)
}

/// Writes what becomes of a saved world in so many updates more, and the last line of a log.
fn write_on<R: Threads + Wait + Sync, O: Sink, G: Gate + Sync>(
    rt: &R,
    alloc: Global,
    state: State,
    more: u32,
    out: &mut O,
    gate: &G,
) -> Result<(), SinkStop>
    requires { state.head.update + more ≤ 1000000 }
    ensures { WritesAll (O.seen out.old) (O.seen out.new) (continued_text state more) result }
{
    let after = write_updates(rt, alloc, state, more, out, gate)?;
    let updates = after.update();
    drop(after);
    write_end(alloc, updates, out)
}

/// Reads a saved world, and writes the log of so many further updates, with its last line.
pub fn resume<R: Threads + Wait + Sync, S: Source, O: Sink, G: Gate + Sync>(
    rt: &R,
    alloc: Global,
    asked: FurtherUpdates,
    source: &mut S,
    out: &mut O,
    gate: &G,
) -> Result<(), CallError>
    requires { (1 ≤ asked.workers) × (asked.workers ≤ 64) }
    ensures { ReadsAndWrites (resume_input_of asked.more) (λ state. continued_text state asked.more)
        (change (S.seen source.old) (S.seen source.new)) (change (O.seen out.old) (O.seen out.new))
        result }
{
    let state = read_state_for(rt, alloc, source, asked.more, asked.workers)?;
    ended_by(write_on(rt, alloc, state, asked.more, out, gate))
}
