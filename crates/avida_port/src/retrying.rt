// Calls of a stream, made again where a signal interrupted them: such a call moved nothing.
ghost use Rattle.std.specs.Prelude.{◌≤◌, IfOk, length};
ghost use Rattle.std.specs.Io.{ReadsAtMost};
ghost use Rattle.std.specs.Io.KnownBytes.{ReadConsumes, WriteAppends};

use std::io::{ErrorKind, Read, Write};

// How often a call is made again in a row; after that it has failed.
const TRIES: u32 = 1_000_000;

// A call failed.
#[derive(Clone, Copy)]
pub(crate) struct Failed;

// Reads once.
pub(crate) fn read_once<R: Read>(from: &mut R, room: &mut [u8]) -> Result<usize, Failed>
    ensures bound { ReadsAtMost result room.new }
    ensures bytes { ReadConsumes (R.remaining from.old) (R.remaining from.new) result room.new }
{
    for _ in 0..TRIES {
        match from.read(room) {
            Ok(n) => return Ok(n),
            Err(e) if e.kind() == ErrorKind::Interrupted => {}
            Err(_) => return Err(Failed),
        }
    }
    Err(Failed)
}

// Writes a first part of the piece.
pub(crate) fn write_once<W: Write>(to: &mut W, piece: &[u8]) -> Result<usize, Failed>
    ensures bound { IfOk result (λ n. n ≤ length piece.now) }
    ensures bytes { WriteAppends (W.contents to.old) (W.contents to.new) result piece.now }
{
    for _ in 0..TRIES {
        match to.write(piece) {
            Ok(n) => return Ok(n),
            Err(e) if e.kind() == ErrorKind::Interrupted => {}
            Err(_) => return Err(Failed),
        }
    }
    Err(Failed)
}
