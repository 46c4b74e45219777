// What a thread knows of the history.
use std::collections::LinkedList;

/// The pictures that were seen, and whether this is the publisher. No value of it is made.
pub struct View<P> {
    pub writes: bool,
    pub seen: LinkedList<P>,
}
