//! What is counted of the living, changed by one organism at a time.
#![tactic(auto)]

mod census;
mod dominant;
mod genotype;
mod genotypes;
pub mod laws;
mod task_counts;

pub use census::Census;
pub use dominant::Dominant;
