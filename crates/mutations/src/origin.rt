ghost use Rattle.std.specs.Prelude.{◌≡◌, IfOk};
ghost use Rattle.mutations.specs.BirthRecord.{record_of};

use crate::{Base, Changes};
use avida_port::Memory;
use std::alloc::Global;

/// The record of a birth: how the child's genome comes from the parent's.
#[derive(Debug, Drop)]
pub struct Origin {
    /// The text that the changes begin from.
    pub base: Base,
    /// What was changed, in turn.
    pub changes: Changes,
}

impl Origin {
    /// An equal record, or `Memory` when memory runs out.
    pub fn copy(&self, alloc: Global) -> Result<Origin, Memory>
        ensures { IfOk result (λ origin. record_of origin ≡ record_of self.now) }
    {
        Ok(Origin {
            base: self.base.copy(alloc)?,
            changes: self.changes.copy(alloc)?,
        })
    }
}
