//! The 26 instructions of the heads processor.
#![tactic(auto)]

pub mod laws;
mod letter;

pub use letter::{Class, LETTER_COUNT, Letter};
