//! The commands, and how the words of a command line give one.
#![tactic(auto)]

mod assay;
mod command;
mod landscape;
pub mod laws;
mod nothing;
mod numbers;
mod parser;
mod positional;
mod reading;
mod refused;
mod run;
mod save;
mod trace;
mod workers;

pub use assay::Assay;
pub use command::{Command, Spelling, genome_spelling, read_words};
pub use positional::{Bench, FurtherUpdates, Lineage};
pub use refused::Refused;
pub use run::Run;
pub use trace::Trace;
