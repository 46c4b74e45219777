use avida_port::Items;
use logic_tasks::Tasks;

/// What is counted of an organism that stands in a cell.
#[derive(Clone, Copy, Debug)]
pub struct Standing {
    pub merit: u64,
    pub credited: Tasks,
}

/// The merit and the credited set of the organism in each cell of a shard.
pub type Standings = Items<Option<Standing>>;
