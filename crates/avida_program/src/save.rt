// The command `save`.
ghost use Rattle.std.specs.Prelude.{◌≤◌};
ghost use Rattle.avida_program.specs.Prelude.{values_of, change, WritesAll};
ghost use Rattle.avida_program.specs.Output.{save_text};
ghost use Rattle.avida_program.specs.Endings.{ReadsAndWrites};
ghost use Rattle.avida_program.specs.Input.{configuration_of};

use crate::call_error::{CallError, ended_by};
use crate::input::read_config;
use crate::saved_world::write_state;
use avida_port::{Gate, Sink, SinkStop, Source};
use logged_run::run_counted;
use std::alloc::Global;
use std::sync::Wait;
use std::thread::Threads;
use world_config::Config;

/// Runs a configuration to its end, and writes the world then.
fn run_and_write<R: Threads + Wait + Sync, O: Sink, G: Gate + Sync>(
    rt: &R,
    alloc: Global,
    config: Config,
    workers: u32,
    out: &mut O,
    gate: &G,
) -> Result<(), SinkStop>
    requires { (1 ≤ workers) × (workers ≤ 64) }
    ensures { WritesAll (O.seen out.old) (O.seen out.new) (save_text (values_of config)) result }
{
    let (world, _) = run_counted(rt, alloc, config, workers, gate)?;
    let state = world.into_state();
    let written = write_state(alloc, &state, out);
    drop(state);
    written
}

/// Reads a configuration, runs it to its end, and writes the world then as a saved world.
pub fn save<R: Threads + Wait + Sync, S: Source, O: Sink, G: Gate + Sync>(
    rt: &R,
    alloc: Global,
    workers: u32,
    source: &mut S,
    out: &mut O,
    gate: &G,
) -> Result<(), CallError>
    requires { (1 ≤ workers) × (workers ≤ 64) }
    ensures { ReadsAndWrites configuration_of save_text
        (change (S.seen source.old) (S.seen source.new)) (change (O.seen out.old) (O.seen out.new))
        result }
{
    let config = read_config(alloc, source)?;
    ended_by(run_and_write(rt, alloc, config, workers, out, gate))
}
