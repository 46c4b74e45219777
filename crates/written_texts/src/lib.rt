//! Texts that are written to a sink, whole or in pieces.
#![tactic(auto)]

mod fixed_text;
mod keeping;
mod no_sink;
mod piece;

pub use fixed_text::{push_integer, push_natural, push_spaced, push_text};
pub use keeping::kept;
pub use no_sink::NoSink;
pub use piece::{PIECE_SIZE, Piece, make_room, write_byte, write_letters, write_text};
