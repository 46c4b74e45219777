ghost use Rattle.std.specs.Prelude.{◌≡◌, ℕ, ◌<◌, ◌^◌};
ghost use Rattle.random_streams.specs.declared.purpose.Purpose.{Purpose};
ghost use Rattle.random_streams.specs.RandomStream.{cell_count, draw, greatest_side, million, stream_number, word_count};

use crate::{CELLS, GREATEST_SIDE, MILLION, WORDS};

/// The limits of the code are the written ones.
pub fn limits()
    ensures side { GREATEST_SIDE ≡ greatest_side }
    ensures cells { CELLS ≡ cell_count }
    ensures words { WORDS ≡ word_count }
    ensures rates { MILLION ≡ million }
{}

/// A word has 32 bits.
pub fn words_fit()
    ensures { (seed update cell : ℕ) (purpose : Purpose) (k : ℕ)
        → draw seed update cell purpose k < 2 ^ 32 }
{}

/// No two updates, cells or purposes share a stream.
pub fn streams_differ()
    ensures { (update other_update cell other_cell : ℕ) (purpose other_purpose : Purpose)
        → cell < cell_count
        → other_cell < cell_count
        → stream_number update cell purpose ≡ stream_number other_update other_cell other_purpose
        → (update ≡ other_update) × (cell ≡ other_cell) × (purpose ≡ other_purpose) }
{}
