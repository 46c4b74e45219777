use crate::body::Body;
use crate::pending_birth::PendingBirth;
use crate::standing::Standing;
use avida_port::Memory;
use genome::Genome;
use logic_tasks::{Inputs, Tasks};
use organism::{Image, Organism};
use std::alloc::Global;
use std::marker::Model;
use std::sync::Arc;

/// An organism in memory of its own: a shard of cells moves by an address a cell.
#[derive(Drop)]
pub struct BoxedOrganism {
    pub(crate) inner: Box<Body>,
}

impl Model for BoxedOrganism {
    ghost use Rattle.organism.specs.OrganismState.{OrganismState};

    ghost Value = { OrganismState };

    ghost use Rattle.cell_shards.specs.CellLives.{CanBeMade, organism_once_made};

    ghost view = { λ b. organism_once_made b.inner.value.organism b.inner.value.pending };

    ghost invariant = { λ b. CanBeMade b.inner.value.pending };
}

impl BoxedOrganism {
    ghost use Rattle.std.specs.Prelude.{◌≡◌, ◌≤◌, IfOk, length};
    ghost use Rattle.genome.specs.Genome.{letters};
    ghost use Rattle.organism.specs.OrganismState.{organism_of_image, new_organism};
    ghost use Rattle.virtual_cpu.specs.View.{image_of};
    ghost use Rattle.cell_shards.specs.CellLives.{standing_of};

    /// The organism moves there.
    pub fn new(alloc: Global, organism: Organism) -> Result<BoxedOrganism, Memory>
        ensures { IfOk result (λ boxed. boxed ≡ organism) }
    {
        let pending = None;
        Ok(BoxedOrganism {
            inner: Box::new(alloc, Body { organism, pending })?,
        })
    }

    /// A newborn takes over the memory of the organism that it replaces. It takes no memory of its
    /// own before its first update, in which the thread that runs it makes its machine.
    pub fn replace(
        &mut self,
        genome: Arc<Genome, Global>,
        inputs: Inputs,
        merit: u64,
        credited: Tasks,
        memory_limit: u32,
    )
        requires genome_within { length (letters genome.value) ≤ memory_limit }
        requires greatest { memory_limit ≤ 8192 }
        ensures { self.new ≡ new_organism (letters genome.value) inputs merit credited memory_limit }
    {
        self.inner.pending = Some(PendingBirth {
            genome,
            inputs,
            merit,
            credited,
            memory_limit,
        });
    }

    #[tactic(auto, unfolding(organism::specs::OrganismState::new_organism))]
    pub fn genome(&self) -> &Arc<Genome, Global>
        ensures { letters result.now.value ≡ self.now.genome }
    {
        match &self.inner.pending {
            Some(pending) => &pending.genome,
            None => self.inner.organism.genome(),
        }
    }

    /// The organism's values.
    pub fn image(&self, alloc: Global) -> Result<Image, Memory>
        ensures organism { IfOk result (λ image.
            organism_of_image image self.now.machine.limit ≡ self.now) }
        ensures cpu { IfOk result (λ image. image.cpu ≡ image_of self.now.machine) }
    {
        match &self.inner.pending {
            Some(pending) => pending.organism(alloc)?.image(alloc),
            None => self.inner.organism.image(alloc),
        }
    }

    /// What is counted of it.
    #[tactic(auto, unfolding(organism::specs::OrganismState::new_organism))]
    pub fn standing(&self) -> Standing
        ensures { result ≡ standing_of self.now }
    {
        match &self.inner.pending {
            Some(pending) => Standing {
                merit: pending.merit,
                credited: pending.credited,
            },
            None => Standing {
                merit: self.inner.organism.merit(),
                credited: self.inner.organism.credited(),
            },
        }
    }
}
