use crate::state_head::StateHead;
use genome::Genome;
use logic_tasks::{Inputs, Tasks};
use virtual_cpu::CpuImage;

/// What one line of a saved world says.
#[derive(Drop)]
pub enum SavedLine {
    Head(StateHead),
    Organism(OrganismLine),
    Machine(CpuImage),
    /// The number of organisms.
    Count(u64),
}

/// What the line of an organism says. Its machine has a line of its own.
#[derive(Drop)]
pub struct OrganismLine {
    pub cell: u32,
    pub id: u64,
    pub merit: u64,
    /// The tasks that its merit comes from.
    pub credited: Tasks,
    /// The steps since its birth or its last viable divide.
    pub age: u64,
    /// How many inputs it has read since then.
    pub read: u64,
    /// The tasks that it has done since then.
    pub gestation: Tasks,
    pub inputs: Inputs,
    pub genome: Genome,
}
