// The command `bench`.
ghost use Rattle.std.specs.Prelude.{◌≡◌, ◌≤◌, ◌<◌, ◌+◌, ◌^◌, ◌++◌, IfOk, OnOk, codes, decimal, length};
ghost use Rattle.avida_program.specs.Prelude.{SinkState, SourceState, Count, line_text, values_of, end_text, head_text, change, unchanged, IsEndOf, IsFinalWorld, WritesAll};
ghost use Rattle.command_line.specs.declared.command.Command.TheVariants as command;
ghost use Rattle.avida_program.specs.Output.{bench_config, bench_text, sums_text};
ghost use Rattle.avida_program.specs.Commands.{CarriesOut};

use crate::call_error::CallError;
use crate::puts::put_text;
use crate::run::leave;
use avida_port::{Gate, Memory, Sink, SinkStop};
use command_line::Bench;
use log_lines::{LogLine, Stats, write_line};
use logged_run::{Sums, run_counted};
use std::alloc::Global;
use std::sync::Wait;
use std::thread::Threads;
use world_config::Config;
use world_core::World;
use written_texts::kept;

/// How many updates are run.
const UPDATES: u32 = 200;

/// The configuration that is run.
fn config_with(alloc: Global, seed: u64) -> Result<Config, Memory>
    requires { seed ≤ 9223372036854775807 }
    ensures { IfOk result (λ config. values_of config ≡ bench_config seed) }
{
    let mut config = Config::plain(alloc)?;
    config.seed = seed;
    config.updates = UPDATES;
    Ok(config)
}

/// Appends the line of a sum.
fn add_sum(text: &mut Vec<u8>, before: &str, sum: u128) -> Result<(), Memory>
    ensures { OnOk result (text.new.items
        ≡ text.old.items ++ before.now ++ decimal sum ++ codes "\n") }
{
    let mut digits = itoa::Buffer::new();
    text.extend_from_slice(before.as_bytes())?;
    text.extend_from_slice(digits.format(sum).as_bytes())?;
    text.push(b'\n')?;
    Ok(())
}

/// The three lines.
fn lines_of(alloc: Global, stats: Stats, births: u128, bytes: u128) -> Result<Vec<u8>, Memory>
    ensures { IfOk result (λ text. text.items ≡ line_text (Count stats)
        ++ codes "births " ++ decimal births ++ codes "\n"
        ++ codes "bytes " ++ decimal bytes ++ codes "\n") }
{
    let mut text = Vec::new(alloc);
    write_line(&LogLine::Count(stats), &mut text)?;
    add_sum(&mut text, "births ", births)?;
    add_sum(&mut text, "bytes ", bytes)?;
    Ok(text)
}

/// The bytes of the whole log whose updates' texts have so many.
fn log_bytes(alloc: Global, world: &World, updates: u128) -> Result<u128, Memory>
    requires { updates < 2 ^ 100 }
    ensures { IfOk result (λ bytes. bytes
        ≡ length (head_text world.now.config) + updates + length (end_text world.now.update)) }
{
    let first = world.first_line(alloc)?;
    let last = world.last_line(alloc)?;
    Ok(first.len() as u128 + updates + last.len() as u128)
}

/// The three lines of a run that came to this end.
fn text_of(alloc: Global, world: &World, sums: Sums) -> Result<Vec<u8>, Memory>
    requires updates { world.now.update ≤ 1000000 }
    requires end { IsEndOf world.now.config world.now sums }
    ensures { IfOk result (λ text. text.items ≡ sums_text world.now.config) }
{
    let bytes = log_bytes(alloc, world, sums.bytes)?;
    lines_of(alloc, world.stats(), sums.births, bytes)
}

/// Puts the three lines of a run that came to this end.
fn tell<O: Sink>(alloc: Global, world: &World, sums: Sums, out: &mut O) -> Result<(), SinkStop>
    requires updates { world.now.update ≤ 1000000 }
    requires end { IsEndOf world.now.config world.now sums }
    ensures { WritesAll (O.seen out.old) (O.seen out.new) (sums_text world.now.config) result }
{
    let text = text_of(alloc, world, sums)?;
    put_text(&text, out)
}

/// Runs a configuration to its end, puts the three lines, and gives the last world.
fn run_and_tell<R: Threads + Wait + Sync, O: Sink, G: Gate + Sync>(
    rt: &R,
    alloc: Global,
    config: Config,
    workers: u32,
    out: &mut O,
    gate: &G,
) -> Result<World, SinkStop>
    requires { (1 ≤ workers) × (workers ≤ 64) }
    ensures world { IfOk result (IsFinalWorld (values_of config)) }
    ensures text { WritesAll (O.seen out.old) (O.seen out.new) (sums_text (values_of config))
        result }
{
    let (world, sums) = run_counted(rt, alloc, config, workers, gate)?;
    let told = tell(alloc, &world, sums, out);
    kept(world, told)
}

/// Runs the world of a seed, puts the three lines, and gives its last world.
fn run_seed<R: Threads + Wait + Sync, O: Sink, G: Gate + Sync>(
    rt: &R,
    alloc: Global,
    seed: u64,
    workers: u32,
    out: &mut O,
    gate: &G,
) -> Result<World, SinkStop>
    requires seed { seed ≤ 9223372036854775807 }
    requires workers { (1 ≤ workers) × (workers ≤ 64) }
    ensures world { IfOk result (IsFinalWorld (bench_config seed)) }
    ensures text { WritesAll (O.seen out.old) (O.seen out.new) (bench_text seed) result }
{
    let config = config_with(alloc, seed)?;
    run_and_tell(rt, alloc, config, workers, out, gate)
}

/// Runs the default configuration with the seed for 200 updates, and writes what is counted after
/// the last one, its births and the length of its log. At its end the last world is left in `last`,
/// and otherwise `last` stays as it was.
pub fn bench<R: Threads + Wait + Sync, O: Sink, G: Gate + Sync>(
    rt: &R,
    alloc: Global,
    asked: Bench,
    out: &mut O,
    last: &mut Option<World>,
    gate: &G,
) -> Result<(), CallError>
    requires seed { asked.seed ≤ 9223372036854775807 }
    requires workers { (1 ≤ asked.workers) × (asked.workers ≤ 64) }
    ensures { (source : SourceState) (watch : SinkState)
        → CarriesOut (command.Bench asked) (record {
          source = unchanged source;
          out = change (O.seen out.old) (O.seen out.new);
          watch = unchanged watch;
          last = change last.old last.new;
        }) result }
{
    let world = run_seed(rt, alloc, asked.seed, asked.workers, out, gate)?;
    leave(last, world);
    Ok(())
}
