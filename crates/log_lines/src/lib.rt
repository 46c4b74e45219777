//! The lines of a log, and their texts.
#![tactic(auto)]

mod birth;
mod fields;
mod front;
pub mod laws;
mod log_line;
mod plain_lines;
mod reading;
mod stats;
mod words;
mod writing;

pub use birth::Birth;
pub use fields::genome_letters;
pub use front::{Front, read_front};
pub use log_line::{LAST_VERSION, LogLine};
pub use reading::{genome_last, read_line};
pub use stats::Stats;
pub use words::{last_word, split_at};
pub use writing::{
    write_birth, write_byte, write_injection, write_line, write_number, write_numbers, write_record,
};
