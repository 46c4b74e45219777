// What a reader sees.
ghost use Rattle.std.specs.Prelude.{◌≡◌, IfOk, take};
ghost use mathlib.Core.List.{IsPrefix};
ghost use Rattle.published_world.specs.Rule.{IsSeen, seen_at};

use crate::picture::Picture;
use crate::rule::{Look, OneHistory};
use crate::shown::Shown;
use crate::view::View;
use left_right::reader::Reader;
use std::alloc::AllocError;

pub type PictureReader<P> = Reader<Shown<P>, View<P>, OneHistory<P>>;

/// What is shown now, or what was shown last where nothing is entered.
pub fn read<P: Picture>(
    reader: PictureReader<P>,
    last: &Shown<P>,
) -> (PictureReader<P>, Result<Shown<P>, AllocError>)
    requires { IsSeen P.number P.of (seen_at reader.place) last.now }
    ensures kept { take last.now.count (seen_at result.0.place)
        ≡ take last.now.count (seen_at reader.place) }
    ensures later { IfOk result.1 (λ shown. IsPrefix (take last.now.count (seen_at reader.place))
        (take shown.count (seen_at result.0.place))) }
    ensures shown { IfOk result.1 (λ shown. IsSeen P.number P.of (seen_at result.0.place) shown) }
{
    match reader.enter_as::<Look<P>>() {
        Ok(reading) => {
            let shown = reading.get().copy();
            (reading.leave(), shown)
        }
        Err(reader) => (reader, last.copy()),
    }
}
