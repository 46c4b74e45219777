use avida_port::Items;
use instruction_set::Letter;

/// One change of a text, at a place of the text as it stands then.
#[derive(Clone, Copy, Debug)]
pub enum Change {
    /// This letter stands at the place instead.
    Point { at: u32, letter: Letter },
    /// This letter comes before the place.
    Insert { at: u32, letter: Letter },
    /// The letter at the place goes.
    Delete { at: u32 },
}

/// Changes of a text, in the order in which they are made.
pub type Changes = Items<Change>;
