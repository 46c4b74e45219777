//! The events of a run in any order, and laws of them: no order changes the world.
#![tactic(auto)]

pub mod laws;
mod schedule;

pub use schedule::{Schedule, ScheduleEvent};
