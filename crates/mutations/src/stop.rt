/// Why a record can't be applied to a parent's genome.
#[derive(Clone, Copy, Debug)]
pub enum ApplyStop {
    /// An allocation failed.
    Memory,
    /// The change of this number, from 1, has no place in the text.
    Place { nth: u64 },
    /// The change of this number, from 1, would leave a length that no genome has.
    Length { nth: u64 },
}
