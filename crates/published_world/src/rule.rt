// The rule that the published value and the views keep, and what each step tells.
ghost use Rattle.published_world.specs.Rule.{Keeps, Appends, Looks, newcomer, reader_of, told};

use crate::picture::Picture;
use crate::shown::Shown;
use crate::view::View;
use atomic_table::{Join, Split};
use crossbeam_utils::rule::{Outcome, Protocol};
use std::marker::PhantomData;

/// There is one history, and each view has seen a prefix of it.
pub struct OneHistory<P> {
    of: PhantomData<P>,
}

impl<P: Picture> Protocol<Shown<P>, View<P>> for OneHistory<P> {
    ghost holds = { Keeps P.number P.of };

    ghost first = { newcomer };
}

/// A reader sees the history so far.
pub struct Look<P> {
    of: PhantomData<P>,
}

impl<P: Picture> Outcome<Shown<P>, View<P>> for Look<P> {
    ghost then = { Looks P.number P.of };
}

/// The publisher appends a picture.
pub struct Append<P> {
    of: PhantomData<P>,
}

impl<P: Picture> Outcome<Shown<P>, View<P>> for Append<P> {
    ghost then = { Appends };
}

/// The publisher tells what it has seen, and keeps it.
pub struct Tell;

impl<P> Split<View<P>> for Tell {
    ghost left = { λ view. view };

    ghost right = { reader_of };
}

/// A reader learns what the publisher has seen.
pub struct Learn;

impl<P> Join<View<P>> for Learn {
    ghost both = { told };

    ghost spent = { newcomer };
}
