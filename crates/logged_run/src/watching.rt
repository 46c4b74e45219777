// The watcher of a run.
ghost use Rattle.std.specs.Prelude.{◌≡◌, ◌<◌, ℕ, IfOk, None, length};
ghost use Rattle.logged_run.specs.Prelude.{SinkState, values_of, ConfigValues, picture_of, picture_text, WritesAll};
ghost use Rattle.logged_run.specs.Watching.{BeginsAs, HasLooked, IsHeard, LooksOn, Watches, is_news, newest_after, news, pictures_text};

use avida_port::{Memory, Sink, SinkStop};
use published_world::{Note, Observer};
use std::alloc::Global;
use std::sync::Arc;
use std::sync::atomic::{AtomicBool, Ordering};
use std::thread;
use std::time::{Clock, Duration};
use world_config::Config;
use world_core::{WorldPicture, picture_line};

/// How many milliseconds a watcher sleeps.
const PAUSE: u64 = 1;

/// Whether the line of this update's picture is to be written: it is newer than the newest that was
/// written, and the run comes to it.
fn is_news_of(update: u32, newest: Option<u32>, last: u32) -> bool
    ensures { result ≡ is_news newest last update }
{
    match newest {
        Some(written) => written < update && update <= last,
        None => update <= last,
    }
}

fn write_line<W: Sink>(alloc: Global, picture: &WorldPicture, sink: &mut W) -> Result<(), SinkStop>
    ensures { WritesAll (W.seen sink.old) (W.seen sink.new)
        (picture_text (picture_of (values_of picture.now.config.value) picture.now.update)) result }
{
    let mut line = Vec::new(alloc);
    picture_line(picture, &mut line)?;
    sink.put(&line)
}

/// Writes the line of a picture where it is news, and gives the newest update that was written.
fn write_news<W: Sink>(
    alloc: Global,
    picture: &WorldPicture,
    newest: Option<u32>,
    last: u32,
    sink: &mut W,
) -> Result<Option<u32>, SinkStop>
    ensures newest { IfOk result (λ after. after ≡ newest_after newest last picture.now.update) }
    ensures lines { WritesAll (W.seen sink.old) (W.seen sink.new)
        (pictures_text (values_of picture.now.config.value)
        (news newest last picture.now.update)) result }
{
    if !is_news_of(picture.update, newest, last) {
        return Ok(newest);
    }
    write_line(alloc, picture, sink)?;
    Ok(Some(picture.update))
}

/// Looks once, and writes the line of the picture where it is news. It gives the newest update that
/// was written.
fn write_look<W: Sink>(
    alloc: Global,
    config: &Config,
    observer: &mut Observer<WorldPicture>,
    newest: Option<u32>,
    sink: &mut W,
) -> Result<Option<u32>, SinkStop>
    ensures { (looks : ℕ) (start : SinkState)
        → HasLooked looks (values_of config.now) observer.old newest start (W.seen sink.old)
        → LooksOn looks (values_of config.now) observer.new start (W.seen sink.new) result }
{
    let picture = observer.look()?;
    write_news(alloc, &picture, newest, config.updates, sink)
}

/// Looks at most `looks` times, and writes the line of each newer picture. It gives the newest
/// update that was written. After a look that showed nothing newer it sleeps, or ends if the run
/// has ended.
pub fn write_looks<R: Clock, W: Sink>(
    rt: &R,
    alloc: Global,
    config: &Config,
    observer: &mut Observer<WorldPicture>,
    looks: u32,
    ended: &AtomicBool,
    sink: &mut W,
) -> Result<Option<u32>, SinkStop>
    requires { BeginsAs (values_of config.now) observer.old }
    ensures { Watches looks (values_of config.now) observer.new
        (W.seen sink.old) (W.seen sink.new) result }
{
    let mut newest = None;
    for _ in 0..looks {
        let at_end = ended.load(Ordering::SeqCst);
        let written = write_look(alloc, config, observer, newest, sink)?;
        if written == newest {
            if at_end {
                return Ok(written);
            }
            thread::sleep(rt, Duration::from_millis(PAUSE));
        }
        newest = written;
    }
    Ok(newest)
}

/// Hears the last note, where there is one.
fn hear_last(observer: &mut Observer<WorldPicture>, note: Option<Note<WorldPicture>>)
    ensures { (config : ConfigValues) (update : ℕ)
        → BeginsAs config observer.old → IsHeard config update note
        → BeginsAs config observer.new × (update < length observer.new) }
{
    if let Some(note) = note {
        observer.hear(note);
    }
}

/// The last picture of a run: what a last look shows. A picture of a later update isn't of this
/// run, and what was published last stands in for it.
fn last_picture(
    observer: &mut Observer<WorldPicture>,
    published: Arc<WorldPicture>,
    note: Option<Note<WorldPicture>>,
) -> Result<Arc<WorldPicture>, Memory>
    requires observer { BeginsAs (values_of published.value.config.value) observer.old }
    requires note { IsHeard (values_of published.value.config.value) published.value.update note }
    ensures update { IfOk result (λ last. last.value.update ≡ published.value.update) }
    ensures config { IfOk result (λ last.
        values_of last.value.config.value ≡ values_of published.value.config.value) }
{
    hear_last(observer, note);
    let picture = observer.look()?;
    if picture.update > published.update {
        return Ok(published);
    }
    Ok(picture)
}

/// Looks once more after a run's end, and writes the line of the run's last picture where it is
/// news.
pub fn write_last_picture<W: Sink>(
    alloc: Global,
    observer: &mut Observer<WorldPicture>,
    published: Arc<WorldPicture>,
    note: Option<Note<WorldPicture>>,
    newest: Option<u32>,
    sink: &mut W,
) -> Result<(), SinkStop>
    requires observer { BeginsAs (values_of published.value.config.value) observer.old }
    requires note { IsHeard (values_of published.value.config.value) published.value.update note }
    ensures { WritesAll (W.seen sink.old) (W.seen sink.new)
        (pictures_text (values_of published.value.config.value)
        (news newest published.value.update published.value.update)) result }
{
    let last = last_picture(observer, published, note)?;
    write_news(alloc, &last, newest, last.update, sink)?;
    Ok(())
}
