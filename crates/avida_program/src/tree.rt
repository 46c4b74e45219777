// The command `tree`.
ghost use Rattle.std.specs.Prelude.{◌≡◌, ◌+◌, ◌++◌, ◌≤◌, flat_map};
ghost use Rattle.avida_program.specs.Prelude.{array_vec_len, ancestor_line, depth_line, tree_text, change, Writes, WritesAll};
ghost use Rattle.avida_program.specs.Output.{counts_line, last_lines, lines_of_tree};
ghost use Rattle.avida_program.specs.Endings.{ReadsAndWrites};
ghost use Rattle.avida_program.specs.Input.{log_input_of};

use crate::call_error::{CallError, ended_by};
use crate::input::read_lines;
use crate::puts::put_rest;
use avida_port::{Sink, SinkStop, Source};
use lineage_log::Log;
use phylogeny::{Depth, Phylogeny, phylogeny};
use std::alloc::Global;
use written_texts::{PIECE_SIZE, Piece, make_room, push_spaced, push_text};

/// No line is longer, and the last two together aren't either.
const LINE_ROOM: usize = 96;

fn push_depth(piece: &mut Piece, depth: &Depth)
    requires { array_vec_len piece.old + 86 ≤ PIECE_SIZE }
    ensures { piece.new.items ≡ piece.old.items ++ depth_line depth.now }
{
    piece.push(b'T');
    push_spaced(piece, u64::from(depth.cell));
    push_spaced(piece, depth.id);
    push_spaced(piece, depth.depth);
    push_spaced(piece, depth.founder);
    piece.push(b'\n');
}

fn push_ancestor(piece: &mut Piece, common: Option<u64>)
    requires { array_vec_len piece.old + 23 ≤ PIECE_SIZE }
    ensures items { piece.new.items ≡ piece.old.items ++ ancestor_line common }
    ensures len { array_vec_len piece.new ≤ array_vec_len piece.old + 23 }
{
    match common {
        Some(id) => {
            piece.push(b'A');
            push_spaced(piece, id);
            piece.push(b'\n');
        }
        None => push_text(piece, "A -\n"),
    }
}

fn push_counts(piece: &mut Piece, kept: u64, branches: u64)
    requires { array_vec_len piece.old + 44 ≤ PIECE_SIZE }
    ensures { piece.new.items ≡ piece.old.items ++ counts_line kept branches }
{
    piece.push(b'K');
    push_spaced(piece, kept);
    push_spaced(piece, branches);
    piece.push(b'\n');
}

fn push_last(piece: &mut Piece, found: &Phylogeny)
    requires { array_vec_len piece.old + 67 ≤ PIECE_SIZE }
    ensures { piece.new.items ≡ piece.old.items ++ last_lines found.now }
{
    push_ancestor(piece, found.common);
    push_counts(piece, found.kept, found.branches);
}

fn write_depth<O: Sink>(piece: &mut Piece, depth: &Depth, out: &mut O) -> Result<(), SinkStop>
    ensures { Writes (O.seen out.old) (O.seen out.new) piece.old.items piece.new.items
        (depth_line depth.now) result }
{
    make_room(piece, LINE_ROOM, out)?;
    push_depth(piece, depth);
    Ok(())
}

fn write_depths<O: Sink>(piece: &mut Piece, depths: &[Depth], out: &mut O) -> Result<(), SinkStop>
    ensures { Writes (O.seen out.old) (O.seen out.new) piece.old.items piece.new.items
        (flat_map depth_line depths.now) result }
{
    for depth in depths {
        write_depth(piece, depth, out)?;
    }
    Ok(())
}

fn write_lines<O: Sink>(piece: &mut Piece, found: &Phylogeny, out: &mut O) -> Result<(), SinkStop>
    ensures { Writes (O.seen out.old) (O.seen out.new) piece.old.items piece.new.items
        (lines_of_tree found.now) result }
{
    write_depths(piece, found.depths.as_slice(), out)?;
    make_room(piece, LINE_ROOM, out)?;
    push_last(piece, found);
    Ok(())
}

fn write_found<O: Sink>(found: &Phylogeny, out: &mut O) -> Result<(), SinkStop>
    ensures { WritesAll (O.seen out.old) (O.seen out.new) (lines_of_tree found.now) result }
{
    let mut piece = Piece::new();
    write_lines(&mut piece, found, out)?;
    put_rest(&piece, out)
}

/// Writes the tree of a log.
fn write_tree<O: Sink>(alloc: Global, log: &Log, out: &mut O) -> Result<(), SinkStop>
    ensures { WritesAll (O.seen out.old) (O.seen out.new) (tree_text log.now) result }
{
    let found = phylogeny(alloc, log)?;
    write_found(&found, out)
}

/// Reads a log, and writes how the organisms alive at its end descend from each other.
pub fn tree<S: Source, O: Sink>(alloc: Global, source: &mut S, out: &mut O) -> Result<(), CallError>
    ensures { ReadsAndWrites log_input_of tree_text
        (change (S.seen source.old) (S.seen source.new)) (change (O.seen out.old) (O.seen out.new))
        result }
{
    let log = read_lines(alloc, source)?;
    ended_by(write_tree(alloc, &log, out))
}
