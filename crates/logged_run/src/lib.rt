//! A run that writes its log, alone or with a watcher beside it, or counts its updates alone.
#![tactic(auto)]

mod beginning;
mod logging;
mod outcomes;
mod publishing;
mod run;
mod sums;
mod watched_run;
mod watching;

pub use logging::run_counted;
pub use run::write_run;
pub use sums::Sums;
