// What a seat knows. No value of these types is made: they are for contracts alone.
use instruction_set::Letter;
use std::collections::LinkedList;

/// What a call came to.
pub enum Call {
    /// The genome of these letters was interned.
    Interned(LinkedList<Letter>),
    /// Memory ran out.
    Refused,
}

/// One call in the history of a bank, with the number that its seat drew under.
pub struct Entry {
    pub seat: u64,
    pub call: Call,
}

/// The numbers that a seat carried before a join, and the history that it had seen then.
pub(crate) struct Memo {
    pub carried: LinkedList<u64>,
    pub seen: LinkedList<Entry>,
}

/// What a seat knows between two steps.
pub(crate) struct View {
    pub share: u64,
    pub carried: LinkedList<u64>,
    pub seen: LinkedList<Entry>,
    /// The number of its draw, counted from the start of the bank and not wrapped.
    pub ticket: Option<u64>,
    /// It has the turn, and the catalog is out with it.
    pub holding: bool,
    /// What it was joined from, until the join has learned from it.
    pub past: LinkedList<Memo>,
}
