use divide_rules::{DivideAsk, Rule};
use logic_tasks::Task;

/// What a step of a life came to.
#[derive(Clone, Copy)]
pub enum Outcome {
    Nothing,
    /// A task was newly done.
    Task(Task),
    /// A divide broke a rule.
    Refused { rule: Rule, found: u32, bound: u32 },
    /// A divide is viable: the parent is still to be renewed.
    Viable(DivideAsk),
}
