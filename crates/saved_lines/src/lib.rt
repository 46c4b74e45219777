//! The lines of a saved world: what they are made of, and their texts.
#![tactic(auto)]

mod fields;
pub mod laws;
mod range;
mod ranges;
mod reading;
mod resident;
mod saved_line;
mod state_head;
mod writing;

pub use reading::read_saved_line;
pub use resident::Resident;
pub use saved_line::{OrganismLine, SavedLine};
pub use state_head::StateHead;
pub use writing::{write_count, write_head, write_resident};
