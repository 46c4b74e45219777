// Texts that are put whole.
ghost use Rattle.std.specs.Prelude.{ℕ, List, [], Ok};
ghost use Rattle.avida_program.specs.Prelude.{SinkState, Writes, WritesAll};

use avida_port::{Sink, SinkStop};
use written_texts::Piece;

/// Puts a text.
pub fn put_text<O: Sink>(text: &[u8], out: &mut O) -> Result<(), SinkStop>
    ensures { WritesAll (O.seen out.old) (O.seen out.new) text.now result }
{
    out.put(text)
}

/// Puts what a piece still holds of a text, which is then written whole.
pub fn put_rest<O: Sink>(piece: &Piece, out: &mut O) -> Result<(), SinkStop>
    ensures { (begun : SinkState) (text : List ℕ)
        → Writes begun (O.seen out.old) [] piece.now.items text (Ok tt)
        → WritesAll begun (O.seen out.new) text result }
{
    put_text(piece.as_slice(), out)
}
