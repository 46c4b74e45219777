// How the program ends.
ghost use Rattle.std.specs.Prelude.{◌≡◌};
ghost use Rattle.avida_program.specs.Status.{number_of_status, status_of};

use crate::call_error::CallError;

/// How a call of the program ended.
#[derive(Clone, Copy, Debug, PartialEq, Eq)]
pub enum Status {
    Done,
    BadWords,
    BadInput,
    ReadFault,
    WriteFault,
    NoMemory,
}

impl Status {
    /// The status of a call that ended so.
    pub(crate) fn of(ended: &Result<(), CallError>) -> Status
        ensures { result ≡ status_of ended.now }
    {
        match ended {
            Ok(()) => Status::Done,
            Err(CallError::BadWords) => Status::BadWords,
            Err(CallError::BadInput(_)) => Status::BadInput,
            Err(CallError::ReadFault) => Status::ReadFault,
            Err(CallError::WriteFault) => Status::WriteFault,
            Err(CallError::Memory) => Status::NoMemory,
        }
    }

    /// The exit status of the process.
    pub fn number(self) -> u8
        ensures { result ≡ number_of_status self }
    {
        match self {
            Status::Done => 0,
            Status::BadWords => 2,
            Status::BadInput => 3,
            Status::ReadFault => 4,
            Status::WriteFault => 5,
            Status::NoMemory => 6,
        }
    }
}
