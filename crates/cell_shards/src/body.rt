use crate::pending_birth::PendingBirth;
use avida_port::Memory;
use organism::Organism;
use std::alloc::Global;

/// An organism, and who is to be made in its place.
#[derive(Drop)]
pub(crate) struct Body {
    // Asked at the start of each life, so it lies beside what the life begins with.
    pub(crate) pending: Option<PendingBirth>,
    pub(crate) organism: Organism,
}

impl Body {
    ghost use Rattle.std.specs.Prelude.{◌≡◌, None, OnOk};
    ghost use Rattle.cell_shards.specs.CellLives.{CanBeMade, organism_once_made};

    /// Who is to be made is made. After `Memory` drop the body.
    pub(crate) fn make(&mut self, alloc: Global) -> Result<(), Memory>
        requires { CanBeMade self.old.pending }
        ensures made { self.new.pending ≡ None }
        ensures organism { OnOk result
            (self.new.organism ≡ organism_once_made self.old.organism self.old.pending) }
    {
        if let Some(pending) = self.pending.take() {
            pending.replace(alloc, &mut self.organism)?;
        }
        Ok(())
    }
}
