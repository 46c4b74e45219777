// Why words give no command.
ghost use Rattle.std.specs.Prelude.{◌≡◌};
ghost use Rattle.command_line.specs.Reading.{refused_by};

use clap::error::ErrorKind;

/// Why a command line gives no command.
#[derive(Clone, Copy, Debug)]
pub enum Refused {
    /// Out of memory.
    Memory,
    /// The command line is invalid.
    BadWords,
}

pub(crate) fn refused_by(kind: ErrorKind) -> Refused
    ensures { result ≡ refused_by kind }
{
    match kind {
        ErrorKind::OutOfMemory => Refused::Memory,
        _ => Refused::BadWords,
    }
}
