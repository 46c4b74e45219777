// What was seen of a history.
ghost use Rattle.std.specs.Prelude.{◌≡◌, IfOk, OnErr, Some, length};
ghost use mathlib.Core.List.{IsPrefix};
ghost use Rattle.published_world.specs.PublicationHistory.{IsPublication, last_of};
ghost use Rattle.published_world.specs.Rule.{IsWholeSeen, seen_at};

use crate::picture::Picture;
use crate::reading::{PictureReader, read};
use crate::shown::Shown;
use avida_port::Memory;
use std::marker::Model;
use std::sync::Arc;

/// The history that was seen: its last picture, its length, and the reader that has seen it. The
/// reader may have seen more, where memory ran out before the picture was taken.
#[derive(Drop)]
pub struct Sight<P: Picture> {
    last: Shown<P>,
    reader: PictureReader<P>,
}

impl<P: Picture> Model for Sight<P> {
    ghost use Rattle.std.specs.Prelude.{List, take};
    ghost use Rattle.published_world.specs.Rule.{IsSeen, seen_at};

    ghost Value = { List P };

    ghost view = { λ s. take s.last.count (seen_at s.reader.place) };

    ghost invariant = { λ s. IsSeen P.number P.of (seen_at s.reader.place) s.last };
}

impl<P: Picture> Sight<P> {
    /// All that the reader has seen.
    pub fn new(last: Shown<P>, reader: PictureReader<P>) -> Sight<P>
        requires { IsWholeSeen P.number P.of (seen_at reader.place) last }
        ensures { result ≡ seen_at reader.place }
    {
        Sight { last, reader }
    }

    /// How many pictures were seen.
    pub fn count(&self) -> u64
        ensures { result ≡ length self.now }
    {
        self.last.count
    }

    /// Looks again. If memory runs out, nothing more was seen.
    pub fn look(self) -> (Sight<P>, Result<Arc<P>, Memory>)
        ensures later { IfOk result.1 (λ _. IsPrefix self result.0) }
        ensures last { IfOk result.1 (λ picture. last_of result.0 ≡ Some picture.value) }
        ensures err { OnErr result.1 (result.0 ≡ self) }
        ensures history { IsPublication P.number P.of result.0 }
    {
        let Sight { last, reader } = self;
        let (reader, shown) = read(reader, &last);
        let Ok(shown) = shown else {
            return (Sight { last, reader }, Err(Memory));
        };
        match Arc::try_clone(&shown.picture) {
            Ok(picture) => {
                let sight = Sight {
                    last: shown,
                    reader,
                };
                (sight, Ok(picture))
            }
            Err(_) => (Sight { last, reader }, Err(Memory)),
        }
    }
}
