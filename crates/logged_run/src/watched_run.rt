// A run with a watcher beside it.
ghost use Rattle.std.specs.Prelude.{◌≤◌};
ghost use Rattle.logged_run.specs.Prelude.{values_of, change};
ghost use Rattle.logged_run.specs.Publishing.{IsBeginning, IsBegun, RunsToEnd};
ghost use Rattle.logged_run.specs.Watching.{Watches};
ghost use Rattle.logged_run.specs.WatchedRun.{EndsWatched, IsAtEnd, RunsWatched};

use crate::beginning::{Beginning, begin};
use crate::outcomes::Outcomes;
use crate::publishing::{Progress, publish_run};
use crate::watching::{write_last_picture, write_looks};
use avida_port::{Gate, Sink, SinkStop};
use published_world::Observer;
use std::alloc::Global;
use std::sync::Wait;
use std::sync::atomic::AtomicBool;
use std::thread::{Threads, join_mut};
use std::time::Clock;
use world_config::Config;
use world_core::{World, WorldPicture};
use written_texts::kept;

/// The watcher in a thread of its own, and the runner in this one. Where no thread can be made the
/// watcher comes after the runner.
fn side_by_side<R: Threads + Wait + Clock + Sync, O: Sink, W: Sink + Send, G: Gate + Sync>(
    rt: &R,
    alloc: Global,
    begun: &mut Beginning,
    looks: u32,
    out: &mut O,
    watch: &mut W,
    gate: &G,
) -> Outcomes
    requires begun { IsBeginning (values_of begun.old.config.value) begun.old }
    ensures watched { Watches looks (values_of begun.old.config.value) begun.new.observer
        (W.seen watch.old) (W.seen watch.new) result.watched }
    ensures ran { RunsToEnd (values_of begun.old.config.value) begun.new.publisher
        (O.seen out.old) (O.seen out.new) result.ran }
{
    let Beginning {
        config,
        progress,
        publisher,
        observer,
    } = begun;
    let config: &Config = config;
    let ended = AtomicBool::new(false);
    let (watched, ran) = join_mut(
        rt,
        &mut || write_looks(rt, alloc, config, observer, looks, &ended, watch),
        &mut || -> Result<Progress, SinkStop>
            requires { IsBegun (values_of config.now) publisher.now progress.now }
            ensures { RunsToEnd (values_of config.entry.now) publisher.exit.now
                (O.seen out.entry.now) (O.seen out.exit.now) result }
        { publish_run(rt, alloc, config, progress, publisher, &ended, out, gate) },
    );
    Outcomes::of(ran, watched)
}

/// Writes the line of a run's last picture where it is news, and leaves the run's world.
pub(crate) fn end_watched<W: Sink>(
    alloc: Global,
    progress: Progress,
    newest: Option<u32>,
    observer: &mut Observer<WorldPicture>,
    watch: &mut W,
) -> Result<World, SinkStop>
    requires { IsAtEnd observer.old progress }
    ensures { EndsWatched progress newest (W.seen watch.old) (W.seen watch.new) result }
{
    let Progress {
        world,
        picture,
        note,
    } = progress;
    let written = write_last_picture(alloc, observer, picture, note, newest, watch);
    kept(world, written)
}

/// Runs what was begun to its end beside its watcher, and then writes the line of the last picture.
fn run_beside<R: Threads + Wait + Clock + Sync, O: Sink, W: Sink + Send, G: Gate + Sync>(
    rt: &R,
    alloc: Global,
    begun: &mut Beginning,
    looks: u32,
    out: &mut O,
    watch: &mut W,
    gate: &G,
) -> Result<World, SinkStop>
    requires begun { IsBeginning (values_of begun.old.config.value) begun.old }
    ensures { RunsWatched looks (values_of begun.old.config.value)
        (change (O.seen out.old) (O.seen out.new)) (change (W.seen watch.old) (W.seen watch.new))
        result }
{
    let outcomes = side_by_side(rt, alloc, begun, looks, out, watch, gate);
    outcomes.end(alloc, &mut begun.observer, watch)
}

/// Runs a configuration to its end and writes the log, with a watcher beside the run.
pub fn write_watched<R: Threads + Wait + Clock + Sync, O: Sink, W: Sink + Send, G: Gate + Sync>(
    rt: &R,
    alloc: Global,
    config: Config,
    workers: u32,
    looks: u32,
    out: &mut O,
    watch: &mut W,
    gate: &G,
) -> Result<World, SinkStop>
    requires { (1 ≤ workers) × (workers ≤ 64) }
    ensures { RunsWatched looks (values_of config)
        (change (O.seen out.old) (O.seen out.new)) (change (W.seen watch.old) (W.seen watch.new))
        result }
{
    let mut begun = begin(rt, alloc, config, workers)?;
    let run = run_beside(rt, alloc, &mut begun, looks, out, watch, gate);
    begun.end(rt);
    run
}
