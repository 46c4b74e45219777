//! Numbered streams of random words.
#![tactic(auto)]

mod block;
mod draws;
pub mod laws;
mod purpose;

pub use draws::{CELLS, Draws, GREATEST_SIDE, MILLION, WORDS, scaled};
pub use purpose::Purpose;
