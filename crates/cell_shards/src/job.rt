use crate::boxed_organism::BoxedOrganism;
use avida_port::Items;
use genotype_bank::Seat;

/// The organism in each cell of a shard.
pub type Cells = Items<Option<BoxedOrganism>>;

/// The steps of each cell of a shard.
pub type Slices = Items<u64>;

/// A shard in an update: its cells from the first one on, their steps, and the seat that interns
/// their newborns.
#[derive(Drop)]
pub struct Job {
    pub first: u32,
    pub cells: Cells,
    pub slices: Slices,
    pub seat: Seat,
}
