// How a run with an observer begins.
ghost use Rattle.std.specs.Prelude.{◌≡◌, ◌≤◌, [], ◌∷◌, IfOk};
ghost use Rattle.logged_run.specs.Prelude.{values_of};
ghost use Rattle.logged_run.specs.Publishing.{IsBeginning, IsNew};

use crate::publishing::Progress;
use avida_port::Memory;
use published_world::{Observer, Publisher, publication};
use std::alloc::Global;
use std::sync::{Arc, Wait};
use world_config::Config;
use world_core::{World, WorldPicture};

/// A run that was begun and shows its first picture to an observer.
pub struct Beginning {
    pub config: Arc<Config, Global>,
    pub progress: Option<Progress>,
    pub publisher: Publisher<WorldPicture>,
    pub observer: Observer<WorldPicture>,
}

impl Beginning {
    /// Nothing more is published of the run, and what is left of it is let go.
    pub fn end<R: Wait>(self, rt: &R) {
        let Beginning {
            config,
            progress,
            publisher,
            observer,
        } = self;
        publisher.end(rt);
        drop((observer, progress, config));
    }
}

/// A new world, and its picture.
fn found_pictured<R: Wait>(
    rt: &R,
    alloc: Global,
    config: Config,
    workers: u32,
) -> Result<Progress, Memory>
    requires { (1 ≤ workers) × (workers ≤ 64) }
    ensures { IfOk result (IsNew (values_of config)) }
{
    let world = World::found(rt, alloc, config, workers)?;
    match world.picture(alloc) {
        Ok(picture) => Ok(Progress {
            world,
            picture,
            note: None,
        }),
        Err(Memory) => {
            drop(world);
            Err(Memory)
        }
    }
}

/// Publishes a first picture to one observer.
fn publish_first<R: Wait>(
    rt: &R,
    alloc: Global,
    picture: &Arc<WorldPicture>,
) -> Result<(Publisher<WorldPicture>, Observer<WorldPicture>), Memory>
    ensures publisher { IfOk result (λ made. made.0 ≡ picture.now.value ∷ []) }
    ensures observer { IfOk result (λ made. made.1 ≡ picture.now.value ∷ []) }
{
    let first = Arc::try_clone(picture)?;
    let (publisher, mut observers) = publication(rt, alloc, first, 1)?;
    let Some(observer) = observers.pop() else {
        unreachable!()
    };
    Ok((publisher, observer))
}

/// Publishes the picture of a run that begins to one observer, beside the run's configuration.
fn publish_new<R: Wait>(
    rt: &R,
    alloc: Global,
    progress: &Progress,
) -> Result<(Arc<Config>, Publisher<WorldPicture>, Observer<WorldPicture>), Memory>
    ensures config { IfOk result
        (λ made. values_of made.0.value ≡ values_of progress.now.picture.value.config.value) }
    ensures publisher { IfOk result (λ made. made.1 ≡ progress.now.picture.value ∷ []) }
    ensures observer { IfOk result (λ made. made.2 ≡ progress.now.picture.value ∷ []) }
{
    let config = Arc::try_clone(&progress.picture.config)?;
    let (publisher, observer) = publish_first(rt, alloc, &progress.picture)?;
    Ok((config, publisher, observer))
}

/// Publishes the picture of a new world to an observer.
fn begin_published<R: Wait>(rt: &R, alloc: Global, progress: Progress) -> Result<Beginning, Memory>
    requires { IsNew progress.world.config progress }
    ensures { IfOk result (IsBeginning progress.world.config) }
{
    match publish_new(rt, alloc, &progress) {
        Ok((config, publisher, observer)) => Ok(Beginning {
            config,
            progress: Some(progress),
            publisher,
            observer,
        }),
        Err(Memory) => {
            drop(progress);
            Err(Memory)
        }
    }
}

/// Begins the run of a configuration, with its first picture published to an observer.
pub fn begin<R: Wait>(
    rt: &R,
    alloc: Global,
    config: Config,
    workers: u32,
) -> Result<Beginning, Memory>
    requires { (1 ≤ workers) × (workers ≤ 64) }
    ensures { IfOk result (IsBeginning (values_of config)) }
{
    let progress = found_pictured(rt, alloc, config, workers)?;
    begin_published(rt, alloc, progress)
}
