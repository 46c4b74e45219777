use logic_tasks::Inputs;

/// A newborn's id, its cell, the organism that it replaces, if any, and its inputs.
#[derive(Clone, Copy, Debug, PartialEq, Eq)]
pub struct Placing {
    pub id: u64,
    pub cell: u32,
    pub over: Option<u64>,
    pub inputs: Inputs,
}
