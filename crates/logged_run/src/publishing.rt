// The runner of a run with a watcher: it publishes a picture of each update.
ghost use Rattle.std.specs.Prelude.{◌≡◌, ◌<◌, ◌≤◌, ◌+◌, IfOk};
ghost use Rattle.logged_run.specs.Prelude.{values_of, update_text, updates_text, WritesAll};
ghost use Rattle.logged_run.specs.Publishing.{HasCome, IsBegun, IsPublished, RunsToEnd};
ghost use Rattle.logged_run.specs.RunText.{IsWorldAt, run_text};
ghost use Rattle.logged_run.specs.Watching.{ArePictures};

use crate::logging::{write_first, write_last, write_update};
use avida_port::{Gate, Memory, Sink, SinkStop};
use published_world::{Note, Publisher};
use std::alloc::Global;
use std::sync::atomic::{AtomicBool, Ordering};
use std::sync::{Arc, Wait};
use std::thread::Threads;
use world_config::Config;
use world_core::{World, WorldPicture};
use written_texts::kept;

/// How far a run has come: its world, the world's picture, which was published last, and a note of
/// it. The first picture has no note.
#[derive(Drop)]
pub struct Progress {
    pub world: World,
    pub picture: Arc<WorldPicture, Global>,
    pub note: Option<Note<WorldPicture>>,
}

/// The world of a run that goes on. Its picture and the note of it are let go.
fn world_of(progress: Progress) -> World
    ensures { result ≡ progress.world }
{
    let Progress { world, .. } = progress;
    world
}

/// One update of a world whose tree is up to date before and after it.
fn write_next<R: Threads + Wait + Sync, O: Sink, G: Gate + Sync>(
    rt: &R,
    alloc: Global,
    world: World,
    out: &mut O,
    gate: &G,
) -> Result<World, SinkStop>
    requires { world.update < 1000000 }
    ensures world { IfOk result (IsWorldAt world.config (world.update + 1)) }
    ensures text { WritesAll (O.seen out.old) (O.seen out.new)
        (update_text world.config (world.update + 1)) result }
{
    let (running, _) = write_update(rt, alloc, world.into_running(), out, gate)?;
    Ok(running.into_world()?)
}

/// Publishes the picture of a world. It gives the picture, and a note of it.
fn publish_picture<R: Wait>(
    rt: &R,
    alloc: Global,
    world: &World,
    publisher: &mut Publisher<WorldPicture>,
) -> Result<(Arc<WorldPicture>, Note<WorldPicture>), Memory>
    requires { ArePictures world.now.config world.now.update publisher.old }
    ensures { IfOk result (λ made. IsPublished world.now.config world.now.update publisher.new
        made.0.value made.1) }
{
    let picture = world.picture(alloc)?;
    let note = publisher.publish(rt, Arc::try_clone(&picture)?)?;
    Ok((picture, note))
}

/// One update: its text is put whole, then its picture is published. The note of the picture before
/// is dropped.
fn publish_update<R: Threads + Wait + Sync, O: Sink, G: Gate + Sync>(
    rt: &R,
    alloc: Global,
    progress: Progress,
    publisher: &mut Publisher<WorldPicture>,
    out: &mut O,
    gate: &G,
) -> Result<Progress, SinkStop>
    requires update { progress.world.update < 1000000 }
    requires come { HasCome progress.world.config progress.world.update publisher.old progress }
    ensures come { IfOk result
        (HasCome progress.world.config (progress.world.update + 1) publisher.new) }
    ensures text { WritesAll (O.seen out.old) (O.seen out.new)
        (update_text progress.world.config (progress.world.update + 1)) result }
{
    let world = write_next(rt, alloc, world_of(progress), out, gate)?;
    match publish_picture(rt, alloc, &world, publisher) {
        Ok((picture, note)) => Ok(Progress {
            world,
            picture,
            note: Some(note),
        }),
        Err(Memory) => {
            drop(world);
            Err(SinkStop::Memory)
        }
    }
}

/// The updates of a new world, with their texts and pictures.
fn publish_updates<R: Threads + Wait + Sync, O: Sink, G: Gate + Sync>(
    rt: &R,
    alloc: Global,
    mut progress: Progress,
    updates: u32,
    publisher: &mut Publisher<WorldPicture>,
    out: &mut O,
    gate: &G,
) -> Result<Progress, SinkStop>
    requires updates { updates ≤ 1000000 }
    requires come { HasCome progress.world.config 0 publisher.old progress }
    ensures come { IfOk result (HasCome progress.world.config updates publisher.new) }
    ensures text { WritesAll (O.seen out.old) (O.seen out.new)
        (updates_text progress.world.config updates) result }
{
    for _ in 0..updates {
        progress = publish_update(rt, alloc, progress, publisher, out, gate)?;
    }
    Ok(progress)
}

/// Writes the log of a run, and publishes its pictures.
fn publish_log<R: Threads + Wait + Sync, O: Sink, G: Gate + Sync>(
    rt: &R,
    alloc: Global,
    config: &Config,
    progress: Progress,
    publisher: &mut Publisher<WorldPicture>,
    out: &mut O,
    gate: &G,
) -> Result<Progress, SinkStop>
    requires { HasCome (values_of config.now) 0 publisher.old progress }
    ensures come { IfOk result (HasCome (values_of config.now) config.now.updates publisher.new) }
    ensures text { WritesAll (O.seen out.old) (O.seen out.new)
        (run_text (values_of config.now)) result }
{
    let first = write_first(alloc, &progress.world, out);
    let progress = kept(progress, first)?;
    let progress = publish_updates(rt, alloc, progress, config.updates, publisher, out, gate)?;
    let last = write_last(alloc, &progress.world, out);
    kept(progress, last)
}

/// The same, of a run that was begun. It takes what was begun, and tells when the run has ended.
pub fn publish_run<R: Threads + Wait + Sync, O: Sink, G: Gate + Sync>(
    rt: &R,
    alloc: Global,
    config: &Config,
    begun: &mut Option<Progress>,
    publisher: &mut Publisher<WorldPicture>,
    ended: &AtomicBool,
    out: &mut O,
    gate: &G,
) -> Result<Progress, SinkStop>
    requires { IsBegun (values_of config.now) publisher.old begun.old }
    ensures { RunsToEnd (values_of config.now) publisher.new
        (O.seen out.old) (O.seen out.new) result }
{
    let Some(progress) = begun.take() else {
        unreachable!()
    };
    let run = publish_log(rt, alloc, config, progress, publisher, out, gate);
    ended.store(true, Ordering::SeqCst);
    run
}
