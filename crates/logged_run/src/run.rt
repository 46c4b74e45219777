// A run that writes its log, alone or with a watcher beside it.
ghost use Rattle.std.specs.Prelude.{◌≡◌, ◌≤◌, None, IfOk, IfErr, OnOk, IfSome};
ghost use Rattle.logged_run.specs.Prelude.{values_of, GainedText, change};
ghost use Rattle.logged_run.specs.WatchedRun.{StopsRun};
ghost use Rattle.logged_run.specs.RunText.{IsFinalWorld, run_text};
ghost use Rattle.logged_run.specs.Watching.{GainedPictures};

use crate::logging::write_log;
use crate::watched_run::write_watched;
use avida_port::{Gate, Sink, SinkStop};
use std::alloc::Global;
use std::sync::Wait;
use std::thread::Threads;
use std::time::Clock;
use world_config::Config;
use world_core::World;

/// Runs a configuration to its end, and writes the log. With `looks` a watcher works beside the
/// run. After an error prefixes of the log and of the watcher's lines are written.
pub fn write_run<R: Threads + Wait + Clock + Sync, O: Sink + Send, W: Sink + Send, G: Gate + Sync>(
    rt: &R,
    alloc: Global,
    config: Config,
    workers: u32,
    looks: Option<u32>,
    out: &mut O,
    watch: &mut W,
    gate: &G,
) -> Result<World, SinkStop>
    requires { (1 ≤ workers) × (workers ≤ 64) }
    ensures world { IfOk result (IsFinalWorld (values_of config)) }
    ensures ok { OnOk result (GainedText (change (O.seen out.old) (O.seen out.new))
        (run_text (values_of config))) }
    ensures watched { OnOk result (IfSome looks (λ n. GainedPictures n (values_of config)
        (change (W.seen watch.old) (W.seen watch.new)))) }
    ensures unwatched { looks ≡ None → W.seen watch.new ≡ W.seen watch.old }
    ensures err { IfErr result (StopsRun looks (values_of config)
        (change (O.seen out.old) (O.seen out.new)) (change (W.seen watch.old) (W.seen watch.new))) }
{
    match looks {
        Some(looks) => write_watched(rt, alloc, config, workers, looks, out, watch, gate),
        None => write_log(rt, alloc, config, workers, out, gate),
    }
}
