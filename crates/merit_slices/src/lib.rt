//! The merit of an organism, and the time that it buys.
#![tactic(auto)]

pub mod laws;
mod merits;
mod slices;

pub use merits::merit;
pub use slices::share;
