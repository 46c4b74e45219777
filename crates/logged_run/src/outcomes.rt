// How the runner and the watcher of a run ended.
ghost use Rattle.std.specs.Prelude.{◌≡◌, IfOk, OnOk};
ghost use Rattle.logged_run.specs.WatchedRun.{EndsRun, IsAtEnd};

use crate::publishing::Progress;
use crate::watched_run::end_watched;
use avida_port::{Sink, SinkStop};
use published_world::Observer;
use std::alloc::Global;
use world_core::{World, WorldPicture};

/// How the runner and the watcher of a run ended. Nothing but `end` reads it, so a run can't end
/// by its watcher's failure where its runner failed too.
#[derive(Drop)]
pub(crate) struct Outcomes {
    ran: Result<Progress, SinkStop>,
    watched: Result<Option<u32>, SinkStop>,
}

impl Outcomes {
    pub(crate) fn of(
        ran: Result<Progress, SinkStop>,
        watched: Result<Option<u32>, SinkStop>,
    ) -> Outcomes
        ensures ran { result.ran ≡ ran }
        ensures watched { result.watched ≡ watched }
    {
        Outcomes { ran, watched }
    }

    /// Ends the run. How the runner ended comes before how the watcher ended, and the line of the
    /// last picture after both.
    pub(crate) fn end<W: Sink>(
        self,
        alloc: Global,
        observer: &mut Observer<WorldPicture>,
        watch: &mut W,
    ) -> Result<World, SinkStop>
        requires { OnOk self.watched (IfOk self.ran (IsAtEnd observer.old)) }
        ensures { EndsRun self.ran self.watched (W.seen watch.old) (W.seen watch.new) result }
    {
        let Outcomes { ran, watched } = self;
        let progress = ran?;
        match watched {
            Ok(newest) => end_watched(alloc, progress, newest, observer, watch),
            Err(stop) => {
                drop(progress);
                Err(stop)
            }
        }
    }
}
