// Texts of at most 8 KiB on their way to a sink. No memory is taken for them.
ghost use Rattle.std.specs.Prelude.{◌≡◌, ◌+◌, ◌≤◌, ◌∷◌, [], map, OnOk};
ghost use Rattle.arrayvec.specs.ArrayVec.{array_vec_len};
ghost use Rattle.instruction_set.specs.Letter.{byte_of};
ghost use Rattle.written_texts.specs.WrittenText.{Writes};

use arrayvec::ArrayVec;
use avida_port::{Sink, SinkStop};
use instruction_set::Letter;

/// A piece of output has at most this many bytes.
pub const PIECE_SIZE: usize = 8192;

/// Output that is collected before it is written.
pub type Piece = ArrayVec<u8, PIECE_SIZE>;

/// Puts the piece, and begins a new one.
fn put_piece<O: Sink>(piece: &mut Piece, out: &mut O) -> Result<(), SinkStop>
    ensures writes { Writes (O.seen out.old) (O.seen out.new)
        piece.old.items piece.new.items [] result }
    ensures empty { OnOk result (piece.new.items ≡ []) }
{
    out.put(piece.as_slice())?;
    piece.clear();
    Ok(())
}

/// Writes the piece if it has no room for this many more bytes.
pub fn make_room<O: Sink>(piece: &mut Piece, bytes: usize, out: &mut O) -> Result<(), SinkStop>
    requires { bytes ≤ PIECE_SIZE }
    ensures writes { Writes (O.seen out.old) (O.seen out.new)
        piece.old.items piece.new.items [] result }
    ensures room { OnOk result (array_vec_len piece.new + bytes ≤ PIECE_SIZE) }
{
    if piece.len() + bytes <= PIECE_SIZE {
        return Ok(());
    }
    put_piece(piece, out)
}

/// Adds a byte to the piece.
pub fn write_byte<O: Sink>(piece: &mut Piece, byte: u8, out: &mut O) -> Result<(), SinkStop>
    ensures { Writes (O.seen out.old) (O.seen out.new)
        piece.old.items piece.new.items (byte ∷ []) result }
{
    make_room(piece, 1, out)?;
    piece.push(byte);
    Ok(())
}

/// Adds letters to the piece. They may be longer than one piece.
pub fn write_letters<O: Sink>(
    piece: &mut Piece,
    letters: &[Letter],
    out: &mut O,
) -> Result<(), SinkStop>
    ensures { Writes (O.seen out.old) (O.seen out.new)
        piece.old.items piece.new.items (map byte_of letters.now) result }
{
    for letter in letters {
        write_byte(piece, letter.byte(), out)?;
    }
    Ok(())
}

fn write_bytes<O: Sink>(piece: &mut Piece, text: &[u8], out: &mut O) -> Result<(), SinkStop>
    ensures { Writes (O.seen out.old) (O.seen out.new)
        piece.old.items piece.new.items text.now result }
{
    for byte in text {
        write_byte(piece, *byte, out)?;
    }
    Ok(())
}

/// Adds a text to the piece. A text that fits into one piece isn't cut.
pub fn write_text<O: Sink>(piece: &mut Piece, text: &[u8], out: &mut O) -> Result<(), SinkStop>
    ensures { Writes (O.seen out.old) (O.seen out.new)
        piece.old.items piece.new.items text.now result }
{
    if text.len() > PIECE_SIZE {
        return write_bytes(piece, text, out);
    }
    make_room(piece, text.len(), out)?;
    let _ = piece.try_extend_from_slice(text);
    Ok(())
}
