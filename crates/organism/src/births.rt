use crate::Newborn;
use avida_port::Items;

/// The newborns of a life, in order of birth.
pub type Births = Items<Newborn>;
