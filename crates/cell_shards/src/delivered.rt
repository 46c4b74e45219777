ghost use Rattle.std.specs.Prelude.{◌≡◌};
ghost use Rattle.genome.specs.Genome.{letters};

use avida_port::Items;
use genome::Genome;
use genotype_bank::Handle;
use logic_tasks::Tasks;
use mutations::Origin;
use std::alloc::Global;
use std::sync::Arc;

/// A newborn whose genome is interned, and that has no cell yet.
#[derive(Drop)]
pub struct Delivered {
    /// The cell of its parent.
    pub cell: u32,
    /// Its number among the newborns of its parent in this update, from 0.
    pub nth: u32,
    pub handle: Handle,
    /// Its genome once more, for the tree of the world. The thread that interned the genome shares
    /// it, since it has it at hand, so the one that places newborns needn't wait for it.
    pub tree_genome: Arc<Genome, Global>,
    pub origin: Origin,
    pub merit: u64,
    pub credited: Tasks,
    ghost same: { letters tree_genome.value ≡ letters handle.genome.value },
}

/// The newborns of a shard, in order of their parents' cells and, within a cell, of birth.
pub type Deliveries = Items<Delivered>;
