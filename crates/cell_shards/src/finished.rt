use crate::delivered::Deliveries;
use crate::job::Cells;
use crate::standing::Standings;
use avida_port::Items;
use genotype_bank::Seat;

/// The cells whose organism died of age, rising.
pub type Dead = Items<u32>;

/// A shard after an update: its cells without the dead, what is counted of them, its newborns, its
/// dead, and its seat.
#[derive(Drop)]
pub struct Finished {
    pub first: u32,
    pub cells: Cells,
    pub standings: Standings,
    pub births: Deliveries,
    pub dead: Dead,
    pub seat: Seat,
}
