//! How the genomes that differ from one in one letter do: each is tried alone.
#![tactic(auto)]

mod alone;
mod changes;
mod entry;
mod first_divide;
mod surveyed;
mod totals;
mod trying;

pub use alone::organism_alone;
pub use entry::{Entries, Entry};
pub use first_divide::Trial;
pub use surveyed::Survey;
pub use totals::Totals;
pub use trying::{survey, trial};
