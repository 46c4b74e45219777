/// The first viable divide of a genome that lives alone.
#[derive(Clone, Copy, Debug, PartialEq, Eq)]
pub struct Trial {
    /// The number of its step, from 1.
    pub step: u64,
    /// The merit that it gives.
    pub merit: u64,
    /// Whether the child is the tested genome.
    pub same: bool,
}
