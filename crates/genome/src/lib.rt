//! Genomes, and their two spellings.
#![tactic(auto)]

mod genome;
pub mod laws;
mod names;
mod stop;
mod text;

pub use genome::{GREATEST_LENGTH, Genome, LEAST_LENGTH};
pub use names::{names_text, read_names};
pub use stop::GenomeStop;
pub use text::{letters_text, read_letters};
