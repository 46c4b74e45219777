// Why a line was not taken.
ghost use Rattle.std.specs.Prelude.{◌≡◌};
ghost use Rattle.lineage_log.specs.declared.refusal.Refusal.TheVariants as refusal;

use crate::reason::Reason;
use avida_port::Memory;
use std::alloc::{AllocError, AllocFailed};

/// Out of memory, or the line is faulty.
#[derive(Clone, Copy)]
pub enum Refusal {
    Memory,
    Faulty(Reason),
}

/// The line does not fit what stands before it.
pub const OUT_OF_ORDER: Refusal = Refusal::Faulty(Reason::BadOrder);

impl From<Memory> for Refusal {
    ghost from_gives = { λ _ made. made ≡ refusal.Memory };

    fn from(_memory: Memory) -> Refusal {
        Refusal::Memory
    }
}

impl From<AllocError> for Refusal {
    ghost from_gives = { λ _ made. made ≡ refusal.Memory };

    fn from(_e: AllocError) -> Refusal {
        Refusal::Memory
    }
}

impl<T: Drop> From<AllocFailed<T>> for Refusal {
    ghost from_gives = { λ _ made. made ≡ refusal.Memory };

    fn from(_e: AllocFailed<T>) -> Refusal {
        Refusal::Memory
    }
}
