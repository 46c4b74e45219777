/// Why letters, or a text, give no genome.
#[derive(Clone, Copy, Debug, PartialEq, Eq)]
pub enum GenomeStop {
    /// An allocation failed.
    Memory,
    /// The byte at this place, from 0, is no letter.
    BadLetter { at: u64 },
    /// The word in this line, from 1, is no instruction's name.
    BadName { line: u64 },
    /// There are only `len` letters, fewer than a genome has.
    TooShort { len: u64 },
    /// There are `len` letters, more than a genome has.
    TooLong { len: u64 },
}
