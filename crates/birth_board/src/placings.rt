use crate::Placing;
use avida_port::Items;

/// Placings, in the order of the newborns.
pub type Placings = Items<Placing>;
