// A run that writes its log, and counts what its updates count together.
ghost use Rattle.std.specs.Prelude.{◌≡◌, ◌≤◌, ◌<◌, ◌+◌, IfOk, length};
ghost use Rattle.logged_run.specs.Prelude.{values_of, head_text, update_text, updates_text, end_text, WritesAll};
ghost use Rattle.logged_run.specs.RunText.{AreSumsOf, IsEndOf, IsFinalWorld, IsWorldAt, run_text};

use crate::sums::{NO_SUMS, Sums};
use avida_port::{Gate, Memory, Sink, SinkStop};
use std::alloc::Global;
use std::sync::Wait;
use std::thread::Threads;
use world_config::Config;
use world_core::{RunningWorld, World};
use written_texts::{NoSink, kept};

/// Puts the log's first line.
pub fn write_first<O: Sink>(alloc: Global, world: &World, out: &mut O) -> Result<(), SinkStop>
    ensures { WritesAll (O.seen out.old) (O.seen out.new) (head_text world.now.config) result }
{
    let line = world.first_line(alloc)?;
    out.put(&line)
}

/// Puts the log's last line.
pub fn write_last<O: Sink>(alloc: Global, world: &World, out: &mut O) -> Result<(), SinkStop>
    ensures { WritesAll (O.seen out.old) (O.seen out.new) (end_text world.now.update) result }
{
    let line = world.last_line(alloc)?;
    out.put(&line)
}

/// One update, whose text is put whole, and the number of its bytes.
pub fn write_update<R: Threads + Wait + Sync, O: Sink, G: Gate + Sync>(
    rt: &R,
    alloc: Global,
    world: RunningWorld,
    out: &mut O,
    gate: &G,
) -> Result<(RunningWorld, usize), SinkStop>
    requires { world.update < 1000000 }
    ensures world { IfOk result (λ next. IsWorldAt world.config (world.update + 1) next.0) }
    ensures bytes { IfOk result
        (λ next. next.1 ≡ length (update_text world.config (world.update + 1))) }
    ensures text { WritesAll (O.seen out.old) (O.seen out.new)
        (update_text world.config (world.update + 1)) result }
{
    let (next, text) = world.advance(rt, alloc, gate)?;
    let put = out.put(&text);
    kept((next, text.len()), put)
}

/// One update, whose text is put whole, and the sums with what it counts.
fn count_update<R: Threads + Wait + Sync, O: Sink, G: Gate + Sync>(
    rt: &R,
    alloc: Global,
    world: RunningWorld,
    sums: Sums,
    out: &mut O,
    gate: &G,
) -> Result<(RunningWorld, Sums), SinkStop>
    requires update { world.update < 1000000 }
    requires sums { AreSumsOf world.config world.update sums }
    ensures world { IfOk result (λ next. IsWorldAt world.config (world.update + 1) next.0) }
    ensures sums { IfOk result (λ next. AreSumsOf world.config (world.update + 1) next.1) }
    ensures text { WritesAll (O.seen out.old) (O.seen out.new)
        (update_text world.config (world.update + 1)) result }
{
    let (next, bytes) = write_update(rt, alloc, world, out, gate)?;
    let sums = sums.with(&next.stats(), bytes);
    Ok((next, sums))
}

/// The updates of a new world, with their texts, and what they count together.
fn write_updates<R: Threads + Wait + Sync, O: Sink, G: Gate + Sync>(
    rt: &R,
    alloc: Global,
    world: World,
    updates: u32,
    out: &mut O,
    gate: &G,
) -> Result<(World, Sums), SinkStop>
    requires new { world.update ≡ 0 }
    requires updates { updates ≤ 1000000 }
    ensures world { IfOk result (λ ran. IsWorldAt world.config updates ran.0) }
    ensures sums { IfOk result (λ ran. AreSumsOf world.config updates ran.1) }
    ensures text { WritesAll (O.seen out.old) (O.seen out.new)
        (updates_text world.config updates) result }
{
    let mut running = world.into_running();
    let mut sums = NO_SUMS;
    for _ in 0..updates {
        (running, sums) = count_update(rt, alloc, running, sums, out, gate)?;
    }
    Ok((running.into_world()?, sums))
}

/// Runs a configuration to its end, writes the log, and gives what the updates count together.
fn write_counted<R: Threads + Wait + Sync, O: Sink, G: Gate + Sync>(
    rt: &R,
    alloc: Global,
    config: Config,
    workers: u32,
    out: &mut O,
    gate: &G,
) -> Result<(World, Sums), SinkStop>
    requires workers { (1 ≤ workers) × (workers ≤ 64) }
    ensures ended { IfOk result (λ ran. IsEndOf (values_of config) ran.0 ran.1) }
    ensures text { WritesAll (O.seen out.old) (O.seen out.new)
        (run_text (values_of config)) result }
{
    let updates = config.updates;
    let world = World::found(rt, alloc, config, workers)?;
    let first = write_first(alloc, &world, out);
    let world = kept(world, first)?;
    let (world, sums) = write_updates(rt, alloc, world, updates, out, gate)?;
    let last = write_last(alloc, &world, out);
    kept((world, sums), last)
}

/// Runs a configuration to its end, and writes the log.
pub fn write_log<R: Threads + Wait + Sync, O: Sink, G: Gate + Sync>(
    rt: &R,
    alloc: Global,
    config: Config,
    workers: u32,
    out: &mut O,
    gate: &G,
) -> Result<World, SinkStop>
    requires workers { (1 ≤ workers) × (workers ≤ 64) }
    ensures world { IfOk result (IsFinalWorld (values_of config)) }
    ensures text { WritesAll (O.seen out.old) (O.seen out.new)
        (run_text (values_of config)) result }
{
    let (world, _) = write_counted(rt, alloc, config, workers, out, gate)?;
    Ok(world)
}

/// Runs a configuration to its end without its log, and gives what the updates count together.
pub fn run_counted<R: Threads + Wait + Sync, G: Gate + Sync>(
    rt: &R,
    alloc: Global,
    config: Config,
    workers: u32,
    gate: &G,
) -> Result<(World, Sums), Memory>
    requires { (1 ≤ workers) × (workers ≤ 64) }
    ensures { IfOk result (λ ran. IsEndOf (values_of config) ran.0 ran.1) }
{
    let mut out = NoSink;
    match write_counted(rt, alloc, config, workers, &mut out, gate) {
        Ok(ran) => Ok(ran),
        Err(SinkStop::Memory) => Err(Memory),
        Err(SinkStop::Fault) => unreachable!(),
    }
}
