//! Saved worlds: what a run leaves, and how that goes on.
#![tactic(auto)]

pub mod laws;
mod saved_stop;

pub use saved_stop::SavedStop;
