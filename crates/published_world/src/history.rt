// What was published, in the hands of the one who writes.
ghost use Rattle.std.specs.Prelude.{◌≡◌, ◌+◌, ◌<◌, ◌^◌, ◌++◌, [], ◌∷◌, IfOk, OnErr, OnOk, Some, length};
ghost use Rattle.left_right.specs.Sides.{view};
ghost use Rattle.published_world.specs.PublicationHistory.{IsPublication, MayFollow, last_of};
ghost use Rattle.published_world.specs.Rule.{MayWrite, newcomer, seen_at};

use crate::picture::Picture;
use crate::reading::PictureReader;
use crate::rule::{Append, Learn, OneHistory, Tell};
use crate::shown::Shown;
use crate::sight::Sight;
use crate::view::View;
use avida_port::Memory;
use left_right::Absorb;
use left_right::writer::Writer;
use std::alloc::{AllocError, Global};
use std::marker::Model;
use std::sync::{Arc, Wait};

pub type PictureWriter<P> = Writer<Shown<P>, Shown<P>, View<P>, OneHistory<P>>;

/// The history that was published, which is empty at first. It is not `Drop`: end it by `end`.
pub struct History<P: Picture>
where
    Shown<P>: Absorb<Shown<P>, State = (u64, P)>,
{
    writer: PictureWriter<P>,
}

impl<P: Picture> Model for History<P>
where
    Shown<P>: Absorb<Shown<P>, State = (u64, P)>,
{
    ghost use Rattle.std.specs.Prelude.{List};
    ghost use Rattle.left_right.specs.Sides.{view as known};
    ghost use Rattle.published_world.specs.Rule.{MayWrite, seen_at};

    ghost Value = { List P };

    ghost view = { λ h. seen_at h.writer.desk.place };

    ghost invariant = { λ h. MayWrite P.number P.of h.writer.desk.shown.value
        (known h.writer.desk.place) };
}

/// Shows a picture and a count that is one more. After an error the same is shown as before.
fn show<P: Picture, R: Wait>(
    rt: &R,
    mut writer: PictureWriter<P>,
    next: Shown<P>,
) -> (PictureWriter<P>, Result<(), AllocError>)
    requires writer { MayWrite P.number P.of writer.desk.shown.value (view writer.desk.place) }
    requires count { next.count ≡ writer.desk.shown.value.count + 1 }
    requires next { MayFollow P.number P.of (seen_at writer.desk.place) next.picture.value }
    ensures writer { MayWrite P.number P.of result.0.desk.shown.value (view result.0.desk.place) }
    ensures ok { OnOk result.1 (seen_at result.0.desk.place
        ≡ seen_at writer.desk.place ++ next.picture.value ∷ []) }
    ensures err { OnErr result.1 (seen_at result.0.desk.place ≡ seen_at writer.desk.place) }
{
    if writer.append(next).is_err() {
        return (writer, Err(AllocError));
    }
    writer.publish_as::<Append<P>, R>(rt)
}

impl<P: Picture> History<P> {
    /// An empty history with room for so many readers. A picture stands in for those to come.
    pub fn new(alloc: Global, picture: &Arc<P>, readers: usize) -> Result<History<P>, Memory>
        requires { (0 < readers) × (readers < 2 ^ 32) }
        ensures { IfOk result (λ history. history ≡ []) }
    {
        let shown = Shown {
            picture: Arc::try_clone(picture)?,
            count: 0,
        };
        let spare = shown.copy()?;
        let writer = Writer::new(alloc, shown, spare, readers)?;
        Ok(History { writer })
    }

    /// How many pictures were published.
    pub fn count(&self) -> u64
        ensures { result ≡ length self.now }
    {
        self.writer.published().count
    }

    /// A reader that has seen nothing, whose place a sight may have. There is none while each place
    /// is in use.
    pub fn room(&self) -> Result<PictureReader<P>, Memory>
        ensures { IfOk result (λ reader. view reader.place ≡ newcomer) }
    {
        Ok(self.writer.factory().reader()?)
    }

    /// A new reader that has seen the whole history. There is none while each place is in use.
    pub fn reader(&mut self) -> Result<PictureReader<P>, Memory>
        ensures history { self.new ≡ self.old }
        ensures reader { IfOk result (λ reader. seen_at reader.place ≡ self.old) }
        ensures publication { IsPublication P.number P.of self.new }
    {
        let mut reader = self.writer.factory().reader()?;
        reader.learn::<Learn>(self.writer.tell::<Tell>());
        Ok(reader)
    }

    /// A sight of the whole history, whose last picture is handed in, and a reader that gives up
    /// its place. It tries until its own reader finds that place.
    pub fn sight<R: Wait>(&mut self, rt: &R, last: Arc<P>, room: PictureReader<P>) -> Sight<P>
        requires { last_of self.old ≡ Some last.value }
        ensures history { self.new ≡ self.old }
        ensures sight { result ≡ self.old }
    {
        drop(room);
        let last = Shown {
            picture: last,
            count: self.count(),
        };
        for _ in rt.forever() {
            if let Ok(reader) = self.reader() {
                return Sight::new(last, reader);
            }
        }
        unreachable!()
    }

    /// Publishes one picture more. After an error the history is unchanged.
    pub fn append<R: Wait>(self, rt: &R, next: Arc<P>) -> (History<P>, Result<(), AllocError>)
        requires { MayFollow P.number P.of self next.value }
        ensures ok { OnOk result.1 (result.0 ≡ self ++ next.value ∷ []) }
        ensures err { OnErr result.1 (result.0 ≡ self) }
        ensures publication { IsPublication P.number P.of result.0 }
    {
        let History { writer } = self;
        let Some(count) = writer.published().count.checked_add(1) else {
            return (History { writer }, Err(AllocError));
        };
        let next = Shown {
            picture: next,
            count,
        };
        let (writer, appended) = show(rt, writer, next);
        (History { writer }, appended)
    }

    /// Nothing more is published. It waits for readers.
    pub fn end<R: Wait>(self, rt: &R) {
        let History { writer } = self;
        drop(writer.take(rt));
    }
}
