//! What holds of every run, over the definitions of a world alone.
#![tactic(auto)]

pub mod laws;
