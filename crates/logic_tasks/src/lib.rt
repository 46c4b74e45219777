//! The nine logic tasks: which of them an output does.
#![tactic(auto)]

mod check;
mod inputs;
mod task;
mod tasks;

pub use check::done;
pub use inputs::Inputs;
pub use task::{TASK_COUNT, TASKS, Task};
pub use tasks::Tasks;
