use divide_rules::DivideAsk;

/// The answer of a step.
#[derive(Clone, Copy, Debug, PartialEq, Eq)]
pub enum StepAnswer {
    Plain,
    Copied,
    Output { value: i32 },
    Asks(DivideAsk),
    Allocated,
}
