//! Genotypes and their numbers, for many threads: each different genome is kept once.
#![tactic(auto)]

mod bank;
mod catalog;
mod crossing;
mod handle;
pub mod laws;
mod packed_genome;
mod packing;
mod rule;
mod seat;
mod steps;
mod view;

pub use bank::{Bank, Genomes};
pub use handle::Handle;
pub use seat::Seat;
