// Why a call isn't done.
ghost use Rattle.std.specs.Prelude.{◌≡◌};
ghost use Rattle.avida_program.specs.Endings.{ended_by, error_at};
ghost use Rattle.avida_program.specs.declared.call_error.CallError.TheVariants as error;

use crate::refusal::Refusal;
use avida_port::{Memory, SinkStop};

/// Why a call isn't done: what its status tells, and for a rejected input the reason.
#[derive(Drop)]
pub enum CallError {
    /// The words give no command.
    BadWords,
    BadInput(Refusal),
    ReadFault,
    WriteFault,
    /// Out of memory: an allocation failed.
    Memory,
}

impl From<Memory> for CallError {
    ghost from_gives = { λ _ given. given ≡ error.Memory };

    fn from(_e: Memory) -> CallError {
        CallError::Memory
    }
}

impl From<SinkStop> for CallError {
    ghost from_gives = { λ stop given. given ≡ error_at stop };

    fn from(stop: SinkStop) -> CallError {
        match stop {
            SinkStop::Fault => CallError::WriteFault,
            SinkStop::Memory => CallError::Memory,
        }
    }
}

/// How a call ends whose text was written so.
pub fn ended_by(written: Result<(), SinkStop>) -> Result<(), CallError>
    ensures { result ≡ ended_by written }
{
    Ok(written?)
}
