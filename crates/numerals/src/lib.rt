//! The one spelling of a number: decimal digits with no sign and no leading zero.
#![tactic(auto)]

pub mod laws;
mod numeral;

pub use numeral::{leading_number, number, small_number};
