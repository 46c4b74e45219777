use avida_port::Memory;
use genome::Genome;
use logic_tasks::{Inputs, Tasks};
use organism::Organism;
use std::alloc::Global;
use std::sync::Arc;

/// What a newborn begins with that has its cell and isn't made yet.
#[derive(Drop)]
pub(crate) struct PendingBirth {
    pub(crate) genome: Arc<Genome, Global>,
    pub(crate) inputs: Inputs,
    pub(crate) merit: u64,
    pub(crate) credited: Tasks,
    pub(crate) memory_limit: u32,
}

impl PendingBirth {
    ghost use Rattle.std.specs.Prelude.{◌≡◌, IfOk, OnOk};
    ghost use Rattle.cell_shards.specs.CellLives.{Fits, begun};

    /// The organism, at its beginning.
    pub(crate) fn organism(&self, alloc: Global) -> Result<Organism, Memory>
        requires { Fits self.now }
        ensures { IfOk result (λ organism. organism ≡ begun self.now) }
    {
        Organism::found(
            alloc,
            Arc::try_clone(&self.genome)?,
            self.inputs,
            self.merit,
            self.credited,
            self.memory_limit,
        )
    }

    /// The organism, at its beginning, in place of another, whose memory it takes over.
    pub(crate) fn replace(self, alloc: Global, organism: &mut Organism) -> Result<(), Memory>
        requires { Fits self }
        ensures { OnOk result (organism.new ≡ begun self) }
    {
        let PendingBirth {
            genome,
            inputs,
            merit,
            credited,
            memory_limit,
        } = self;
        organism.restart(alloc, genome, inputs, merit, credited, memory_limit)
    }
}
