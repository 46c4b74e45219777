use crate::first_divide::Trial;
use avida_port::Items;
use instruction_set::Letter;

/// A genome with one other letter, and its trial. None where no divide is viable.
#[derive(Clone, Copy, Debug, PartialEq, Eq)]
pub struct Entry {
    /// The place of the letter, from 0.
    pub at: u32,
    pub letter: Letter,
    pub trial: Option<Trial>,
}

/// Places rise, and letters within a place.
pub type Entries = Items<Entry>;
