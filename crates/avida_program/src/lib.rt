//! All that the program does, over any source and sinks.
#![tactic(auto)]

mod advance;
mod bench;
mod call_error;
mod fault_line;
mod input;
pub mod laws;
mod lineage;
mod neighbours;
mod puts;
mod refusal;
mod replay;
mod resume;
mod run;
mod save;
mod saved_world;
mod seeds;
mod serving;
mod status;
mod trace;
mod trace_line;
mod tree;
mod upgrade;

pub use serving::serve;
pub use status::Status;
