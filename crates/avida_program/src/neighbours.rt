// The command `landscape`.
ghost use Rattle.std.specs.Prelude.{◌≡◌, ◌+◌, ◌++◌, ◌≤◌, cond, flat_map};
ghost use Rattle.avida_program.specs.Prelude.{array_vec_len, letters, base_line, entry_line, landscape_text, neighbour_line, survey_text, totals_line, trial_text, change, Writes, WritesAll};
ghost use Rattle.command_line.specs.declared.command.Spelling.TheVariants.{Letters};
ghost use Rattle.avida_program.specs.Endings.{ReadsAndWrites};
ghost use Rattle.avida_program.specs.Input.{genome_of_input};

use crate::call_error::{CallError, ended_by};
use crate::input::read_genome;
use crate::puts::put_rest;
use avida_port::{Sink, SinkStop, Source};
use command_line::Spelling;
use genome::Genome;
use instruction_set::Letter;
use landscape::{Entry, Survey, Totals, Trial, survey};
use std::alloc::Global;
use std::thread::Threads;
use written_texts::{PIECE_SIZE, Piece, make_room, push_natural, push_spaced, push_text};

/// No line is longer.
const LINE_ROOM: usize = 96;

fn same_number(same: bool) -> u64
    ensures { result ≡ cond same 1 0 }
{
    if same { 1 } else { 0 }
}

fn push_trial(piece: &mut Piece, trial: &Trial)
    requires { array_vec_len piece.old + 63 ≤ PIECE_SIZE }
    ensures items { piece.new.items ≡ piece.old.items ++ trial_text trial.now }
    ensures len { array_vec_len piece.new ≤ array_vec_len piece.old + 63 }
{
    push_spaced(piece, trial.step);
    push_spaced(piece, trial.merit);
    push_spaced(piece, same_number(trial.same));
}

fn push_base(piece: &mut Piece, base: &Option<Trial>)
    requires { array_vec_len piece.old + 65 ≤ PIECE_SIZE }
    ensures { piece.new.items ≡ piece.old.items ++ base_line base.now }
{
    match base {
        Some(trial) => {
            piece.push(b'G');
            push_trial(piece, trial);
            piece.push(b'\n');
        }
        None => push_text(piece, "G -\n"),
    }
}

fn push_neighbour(piece: &mut Piece, at: u32, letter: Letter, trial: &Trial)
    requires { array_vec_len piece.old + 88 ≤ PIECE_SIZE }
    ensures { piece.new.items ≡ piece.old.items ++ neighbour_line at letter trial.now }
{
    push_text(piece, "N ");
    push_natural(piece, u64::from(at));
    piece.push(b' ');
    piece.push(letter.byte());
    push_trial(piece, trial);
    piece.push(b'\n');
}

fn push_totals(piece: &mut Piece, totals: &Totals)
    requires { array_vec_len piece.old + 86 ≤ PIECE_SIZE }
    ensures { piece.new.items ≡ piece.old.items ++ totals_line totals.now }
{
    piece.push(b'T');
    push_spaced(piece, totals.entries);
    push_spaced(piece, totals.trials);
    push_spaced(piece, totals.same);
    push_spaced(piece, totals.better);
    piece.push(b'\n');
}

/// An entry without a trial has no line.
fn write_entry<O: Sink>(piece: &mut Piece, entry: &Entry, out: &mut O) -> Result<(), SinkStop>
    ensures { Writes (O.seen out.old) (O.seen out.new) piece.old.items piece.new.items
        (entry_line entry.now) result }
{
    let Some(trial) = &entry.trial else {
        return Ok(());
    };
    make_room(piece, LINE_ROOM, out)?;
    push_neighbour(piece, entry.at, entry.letter, trial);
    Ok(())
}

fn write_entries<O: Sink>(piece: &mut Piece, entries: &[Entry], out: &mut O) -> Result<(), SinkStop>
    ensures { Writes (O.seen out.old) (O.seen out.new) piece.old.items piece.new.items
        (flat_map entry_line entries.now) result }
{
    for entry in entries {
        write_entry(piece, entry, out)?;
    }
    Ok(())
}

fn write_lines<O: Sink>(
    piece: &mut Piece,
    base: &Option<Trial>,
    entries: &[Entry],
    totals: &Totals,
    out: &mut O,
) -> Result<(), SinkStop>
    ensures { Writes (O.seen out.old) (O.seen out.new) piece.old.items piece.new.items
        (base_line base.now ++ flat_map entry_line entries.now ++ totals_line totals.now) result }
{
    make_room(piece, LINE_ROOM, out)?;
    push_base(piece, base);
    write_entries(piece, entries, out)?;
    make_room(piece, LINE_ROOM, out)?;
    push_totals(piece, totals);
    Ok(())
}

fn write_parts<O: Sink>(
    base: &Option<Trial>,
    entries: &[Entry],
    totals: &Totals,
    out: &mut O,
) -> Result<(), SinkStop>
    ensures { WritesAll (O.seen out.old) (O.seen out.new)
        (base_line base.now ++ flat_map entry_line entries.now ++ totals_line totals.now) result }
{
    let mut piece = Piece::new();
    write_lines(&mut piece, base, entries, totals, out)?;
    put_rest(&piece, out)
}

fn write_found<O: Sink>(found: &Survey, out: &mut O) -> Result<(), SinkStop>
    ensures { WritesAll (O.seen out.old) (O.seen out.new) (survey_text found.now) result }
{
    let totals = found.totals();
    write_parts(&found.base, found.entries.as_slice(), &totals, out)
}

/// Tries a genome and those that differ from it in one letter, and writes their trials.
fn write_landscape<R: Threads + Sync, O: Sink>(
    rt: &R,
    alloc: Global,
    genome: &Genome,
    steps: u32,
    out: &mut O,
) -> Result<(), SinkStop>
    ensures { WritesAll (O.seen out.old) (O.seen out.new)
        (landscape_text (letters genome.now) steps) result }
{
    let found = survey(rt, alloc, genome, steps)?;
    write_found(&found, out)
}

/// Reads a genome, and writes how it and each genome that differs from it in one letter do alone.
pub fn landscape<R: Threads + Sync, S: Source, O: Sink>(
    rt: &R,
    alloc: Global,
    steps: u32,
    source: &mut S,
    out: &mut O,
) -> Result<(), CallError>
    ensures { ReadsAndWrites (genome_of_input Letters) (λ genome. landscape_text genome steps)
        (change (S.seen source.old) (S.seen source.new)) (change (O.seen out.old) (O.seen out.new))
        result }
{
    let genome = read_genome(alloc, Spelling::Letters, source)?;
    ended_by(write_landscape(rt, alloc, &genome, steps, out))
}
