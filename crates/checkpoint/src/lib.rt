//! Saved worlds as bytes: their text, and its reading.
#![tactic(auto)]

mod half;
pub mod laws;
mod place;
mod read;
mod rules;
mod so_far;
mod writing;

pub use read::read_saved;
pub use saved_worlds::SavedStop;
pub use writing::{cell_text, head_text, tail_text};
