//! The rules that a divide must keep.
#![tactic(auto)]

mod ask;
pub mod laws;
mod limits;
mod rule;
mod verdict;

pub use ask::DivideAsk;
pub use limits::DivideRules;
pub use rule::Rule;
pub use verdict::{Verdict, judge};
