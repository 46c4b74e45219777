//! Who descends from whom in a log: the depth of each living organism, and the latest common
//! ancestor of all living organisms.
#![tactic(auto)]

mod depths;
pub mod laws;
mod pedigree;
mod reading;
mod shape;
mod tree;

pub use depths::{Depth, Depths};
pub use reading::phylogeny;
pub use tree::Phylogeny;
