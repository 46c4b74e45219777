// Reads a saved world.
ghost use Rattle.std.specs.Prelude.{◌≡◌, ◌≤◌, IfErr, IfOk, Ok};
ghost use Rattle.checkpoint.specs.Prelude.{last_saved_piece, saved_of};
ghost use Rattle.saved_lines.specs.SavedReading.{saved_line_of};
ghost use Rattle.checkpoint.specs.Reading.{saved_place_of, Ends, IsFaultOf, Steps};

use crate::place::{ReadPlace, told_saved_line};
use crate::so_far::SoFar;
use log_lines::split_at;
use saved_lines::laws::one_spelling;
use saved_lines::read_saved_line;
use saved_worlds::SavedStop;
use std::alloc::Global;
use std::sync::Wait;
use world_core::State;

/// Reads the bytes of a saved world as a world that goes on with `workers` workers, or names the
/// first faulty line. It may wait, since it interns the genomes of the organisms.
pub fn read_saved<R: Wait>(
    rt: &R,
    alloc: Global,
    bytes: &[u8],
    workers: u32,
) -> Result<State, SavedStop>
    requires { (1 ≤ workers) × (workers ≤ 64) }
    ensures ok { IfOk result (λ state. saved_of bytes.now ≡ Ok state) }
    ensures err { IfErr result (λ stop. IsFaultOf stop (saved_of bytes.now)) }
{
    let so_far = read_lines(alloc, bytes)?;
    Ok(so_far.into_state(rt, alloc, workers)?)
}

/// What all lines tell.
#[tactic(auto, unfolding(saved_worlds::specs::SavedGrammar::saved_of))]
fn read_lines(alloc: Global, bytes: &[u8]) -> Result<SoFar, SavedStop>
    ensures { Ends result (saved_of bytes.now) }
{
    let mut rest = bytes;
    let mut number = 1;
    let mut place = ReadPlace::Before;
    loop {
        let (piece, others) = split_at(rest, b'\n');
        let Some(behind) = others else {
            return last_saved_piece(number, place, piece);
        };
        place = place_after(alloc, number, place, piece)?;
        number += 1;
        rest = behind;
    }
}

/// The place after one line more.
fn place_after(
    alloc: Global,
    number: u64,
    place: ReadPlace,
    piece: &[u8],
) -> Result<ReadPlace, SavedStop>
    ensures { Steps result number (saved_place_of place) (saved_line_of piece.now) }
{
    one_spelling();
    let Some(line) = read_saved_line(alloc, piece)? else {
        return Err(SavedStop::BadLine { line: number });
    };
    match told_saved_line(alloc, place, line)? {
        Some(next) => Ok(next),
        None => Err(SavedStop::BadState { line: number }),
    }
}

/// The end of the bytes, behind the last newline.
fn last_saved_piece(number: u64, place: ReadPlace, piece: &[u8]) -> Result<SoFar, SavedStop>
    ensures { Ends result (last_saved_piece number (saved_place_of place) piece.now) }
{
    if !piece.is_empty() {
        return Err(SavedStop::BadLine { line: number });
    }
    match place {
        ReadPlace::After(so_far) => Ok(so_far),
        _ => Err(SavedStop::Unended { line: number }),
    }
}
