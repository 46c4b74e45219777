ghost use Rattle.std.specs.Prelude.{◌≡◌, IfOk};
ghost use Rattle.mutations.specs.BirthRecord.{written_in};

use avida_port::Memory;
use genome::Genome;
use std::alloc::Global;

/// What the changes of a birth begin from.
#[derive(Debug, Drop)]
pub enum Base {
    /// The parent's genome.
    Parent,
    /// The text that the parent wrote, without its copy errors.
    Written(Genome),
}

impl Base {
    /// An equal base, or `Memory` when memory runs out.
    pub fn copy(&self, alloc: Global) -> Result<Base, Memory>
        ensures { IfOk result (λ base. written_in base ≡ written_in self.now) }
    {
        match self {
            Base::Parent => Ok(Base::Parent),
            Base::Written(genome) => Ok(Base::Written(genome.copy(alloc)?)),
        }
    }
}
