//! An organism, and the steps of its life.
#![tactic(auto)]

mod births;
mod image;
pub mod laws;
mod newborn;
mod organism;
mod outcome;
mod ran;
mod running;
mod settings;
mod trace_rules;
mod traced;

pub use births::Births;
pub use image::Image;
pub use newborn::Newborn;
pub use organism::Organism;
pub use ran::Ran;
pub use settings::Settings;
pub use trace_rules::TRACE_LENGTH;
pub use traced::{Remark, Traced};
