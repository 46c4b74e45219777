//! The definitions of a world: what an update does to it, and the log of its run.
#![tactic(auto)]

pub mod laws;
pub mod tiny_worlds;
