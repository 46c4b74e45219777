// What a saved organism is made of.
use genome::Genome;
use logic_tasks::{Inputs, Tasks};
use std::alloc::Global;
use std::sync::Arc;
use virtual_cpu::CpuImage;

/// The values of an organism. The limit of its machine's memory stands beside them.
#[derive(Drop)]
pub struct Image {
    pub merit: u64,
    /// The tasks that its merit comes from.
    pub credited: Tasks,
    /// The steps since its birth or its last viable divide.
    pub age: u64,
    /// How many inputs it has read since then.
    pub read: u64,
    /// The tasks that it has done since then.
    pub gestation: Tasks,
    pub inputs: Inputs,
    pub genome: Arc<Genome, Global>,
    pub cpu: CpuImage,
}
