// The command `run`.
ghost use Rattle.std.specs.Prelude.{◌≡◌, ◌≤◌, Some};
ghost use Rattle.avida_program.specs.Prelude.{change};
ghost use Rattle.command_line.specs.declared.command.Command.TheVariants as command;
ghost use Rattle.avida_program.specs.Commands.{CarriesOut};

use crate::call_error::CallError;
use crate::input::read_config;
use avida_port::{Gate, Sink, Source};
use command_line::Run;
use lineage_log::laws::read_exactly;
use logged_run::write_run;
use std::alloc::Global;
use std::sync::Wait;
use std::thread::Threads;
use std::time::Clock;
use world_core::World;
use world_core::laws::replay_gives_living;

/// Leaves a world, in place of one that was there before.
pub fn leave(last: &mut Option<World>, world: World)
    ensures { last.new ≡ Some world }
{
    drop(last.replace(world));
}

/// Reads a configuration, and writes the log of its run, which replays to the living at its end.
/// If it is asked for, there is a watcher, which writes lines of pictures to `watch`. At its end the
/// last world is left in `last`, and otherwise `last` stays as it was.
pub fn run<
    R: Threads + Wait + Clock + Sync,
    S: Source,
    O: Sink + Send,
    W: Sink + Send,
    G: Gate + Sync,
>(
    rt: &R,
    alloc: Global,
    asked: Run,
    source: &mut S,
    out: &mut O,
    watch: &mut W,
    last: &mut Option<World>,
    gate: &G,
) -> Result<(), CallError>
    requires { (1 ≤ asked.workers) × (asked.workers ≤ 64) }
    ensures { CarriesOut (command.Run asked) (record {
      source = change (S.seen source.old) (S.seen source.new);
      out = change (O.seen out.old) (O.seen out.new);
      watch = change (W.seen watch.old) (W.seen watch.new);
      last = change last.old last.new;
    }) result }
{
    let config = read_config(alloc, source)?;
    replay_gives_living(&config, config.updates);
    read_exactly();
    let world = write_run(
        rt,
        alloc,
        config,
        asked.workers,
        asked.watch,
        out,
        watch,
        gate,
    )?;
    leave(last, world);
    Ok(())
}
