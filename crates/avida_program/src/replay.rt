// The command `replay`.
ghost use Rattle.std.specs.Prelude.{◌≡◌, ◌+◌, ◌++◌, ◌≤◌, List, flat_map, codes, decimal};
ghost use Rattle.avida_program.specs.Prelude.{array_vec_len, replay_of, Line, change, Writes, WritesAll};
ghost use Rattle.avida_program.specs.Output.{replay_text, resident_line};
ghost use Rattle.avida_program.specs.Endings.{ReadsAndWrites};
ghost use Rattle.avida_program.specs.Input.{log_input_of};

use crate::call_error::{CallError, ended_by};
use crate::input::read_livings;
use crate::puts::put_rest;
use avida_port::{Sink, SinkStop, Source};
use lineage_log::{Living, Livings};
use std::alloc::Global;
use written_texts::{PIECE_SIZE, Piece, make_room, push_natural, write_byte, write_letters};

/// No line is longer before its letters.
const LINE_ROOM: usize = 64;

fn push_place(piece: &mut Piece, living: &Living)
    requires { array_vec_len piece.old + 42 ≤ PIECE_SIZE }
    ensures { piece.new.items ≡ piece.old.items
        ++ (decimal living.now.cell ++ codes " " ++ decimal living.now.id ++ codes " ") }
{
    push_natural(piece, u64::from(living.cell));
    piece.push(b' ');
    push_natural(piece, living.id);
    piece.push(b' ');
}

fn write_living<O: Sink>(piece: &mut Piece, living: &Living, out: &mut O) -> Result<(), SinkStop>
    ensures { Writes (O.seen out.old) (O.seen out.new) piece.old.items piece.new.items
        (resident_line living.now) result }
{
    make_room(piece, LINE_ROOM, out)?;
    push_place(piece, living);
    write_letters(piece, living.genome.letters(), out)?;
    write_byte(piece, b'\n', out)
}

fn write_livings<O: Sink>(livings: &[Living], out: &mut O) -> Result<(), SinkStop>
    ensures { WritesAll (O.seen out.old) (O.seen out.new)
        (flat_map resident_line livings.now) result }
{
    let mut piece = Piece::new();
    for living in livings {
        write_living(&mut piece, living, out)?;
    }
    put_rest(&piece, out)
}

fn write_replayed<O: Sink>(livings: Livings, out: &mut O) -> Result<(), SinkStop>
    ensures { (lines : List Line) → livings ≡ replay_of lines
        → WritesAll (O.seen out.old) (O.seen out.new) (replay_text lines) result }
{
    write_livings(livings.as_slice(), out)
}

/// Reads a log, and writes a line for each organism that lives at its end.
pub fn replay<S: Source, O: Sink>(
    alloc: Global,
    source: &mut S,
    out: &mut O,
) -> Result<(), CallError>
    ensures { ReadsAndWrites log_input_of replay_text
        (change (S.seen source.old) (S.seen source.new)) (change (O.seen out.old) (O.seen out.new))
        result }
{
    let livings = read_livings(alloc, source)?;
    ended_by(write_replayed(livings, out))
}
