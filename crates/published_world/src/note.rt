// What an observer is told.
use crate::picture::Picture;
use crate::sight::Sight;
use std::marker::Model;

/// It tells of a picture that was published. Contracts see it as the history up to that picture.
///
/// Each note holds one of the 64 places that a publication has for its notes.
#[derive(Drop)]
pub struct Note<P: Picture> {
    pub(crate) sight: Sight<P>,
}

impl<P: Picture> Model for Note<P> {
    ghost use Rattle.std.specs.Prelude.{List};

    ghost Value = { List P };

    ghost view = { λ n. n.sight };
}
