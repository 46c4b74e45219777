//! Several seeds of one configuration, side by side.
#![tactic(auto)]

mod assayed;
mod seed_run;
mod side_by_side;
mod tally;

pub use assayed::{Assay, Assays};
pub use side_by_side::assay;
pub use tally::seeds_with_each;
