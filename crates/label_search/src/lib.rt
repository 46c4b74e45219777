//! Templates of nops, and where they stand in memory.
#![tactic(auto)]

mod search;
mod site;
mod template;

pub use search::find;
pub use site::{Site, letter_at};
pub use template::{LONGEST_TEMPLATE, Reading, Template, complement_after, template_after};
