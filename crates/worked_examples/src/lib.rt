//! Worked examples as theorems: what the definitions give for values that were worked out by hand.
#![tactic(auto)]

pub mod births;
pub mod descent;
pub mod organisms;
pub mod texts;
