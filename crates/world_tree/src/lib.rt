//! The tree of a world: the living and their ancestors.
#![tactic(auto)]

mod burying;
mod entering;
mod world_tree;

pub use world_tree::WorldTree;
