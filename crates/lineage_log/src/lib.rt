//! The log of a run: its lines, its laws and its reader.
#![tactic(auto)]

mod ancestor;
mod child;
pub mod laws;
mod link;
mod living;
mod log;
mod log_reader;
mod log_stop;
mod node;
mod nodes;
mod people;
mod place;
mod read;
mod reader;
mod reason;
mod refusal;
mod residents;
mod slots;
mod stage;
mod tree;

pub use ancestor::{Ancestor, Provenance};
pub use link::{Link, Path};
pub use living::{Living, Livings};
pub use log::Log;
pub use log_lines::{LAST_VERSION, LogLine, Stats, write_line};
pub use log_stop::LogStop;
pub use read::read_log;
pub use reason::Reason;
pub use residents::{living_at_end, replay};
pub use tree::Tree;
