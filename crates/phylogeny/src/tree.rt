use crate::depths::Depths;

/// How the organisms that live at the end of a log descend from each other.
#[derive(Debug, Drop)]
pub struct Phylogeny {
    /// How far each is from its founder, in order of cells.
    pub depths: Depths,
    /// The latest common ancestor. None if no organism lives, or if two have different founders.
    pub common: Option<u64>,
    /// How many organisms ever live or are ancestors of one that lives.
    pub kept: u64,
    /// How many of these have at least two children among them.
    pub branches: u64,
}
