// The placing of newborns, one after another.
ghost use Rattle.std.specs.Prelude.{◌≡◌, ◌+◌, ◌*◌, ◌<◌, ◌≤◌, ◌^◌, ◌∷◌, [], ◌==◌, if◌then◌else◌, All, IfOk, OnOk, OnErr, Some, filter, is_none, length, slice_set, vec_capacity};
ghost use Rattle.random_streams.specs.RandomStream.{word_of, after};
ghost use Rattle.birth_board.specs.Torus.{torus_numbers, cells_of};
ghost use Rattle.birth_board.specs.Placement.{is_free, chosen_from, chosen_cell, placing_of, place_stream, CanPlace, ArePlaced, AreSettled};

use crate::{Occupants, Parents, Placing, PlacingRound, Placings, Torus, neighbours};
use arrayvec::ArrayVec;
use avida_port::Memory;
use logic_tasks::Inputs;
use random_streams::{Draws, Purpose, scaled};
use std::alloc::Global;

/// The stream of the cell whose newborns are placed.
#[derive(Drop)]
struct Turn {
    cell: u32,
    draws: Draws,
}

/// Places one newborn for each parent, in order. If memory runs out, the occupants are unchanged.
pub fn place(
    alloc: Global,
    torus: &Torus,
    parents: &Parents,
    occupants: &mut Occupants,
    round: &PlacingRound,
) -> Result<Placings, Memory>
    requires { CanPlace (torus_numbers torus.now) parents.now occupants.old round.now }
    ensures placings { IfOk result
        (ArePlaced (torus_numbers torus.now) parents.now occupants.old round.now) }
    ensures occupants { OnOk result (AreSettled (torus_numbers torus.now) parents.now
        occupants.old round.now occupants.new) }
    ensures err { OnErr result (occupants.new ≡ occupants.old) }
{
    let mut placings = Vec::with_capacity(alloc, parents.len())?;
    place_all(torus, parents.as_slice(), occupants, round, &mut placings);
    Ok(Placings::from_vec(placings))
}

/// Places the newborns where there is room for their placings.
fn place_all(
    torus: &Torus,
    parents: &[u32],
    occupants: &mut Occupants,
    round: &PlacingRound,
    placings: &mut Vec<Placing>,
)
    requires can { CanPlace (torus_numbers torus.now) parents.now occupants.old round.now }
    requires none { placings.old.items ≡ [] }
    requires room { length parents.now ≤ vec_capacity placings.old }
    ensures placings { ArePlaced (torus_numbers torus.now) parents.now occupants.old round.now
        placings.new.items }
    ensures occupants { AreSettled (torus_numbers torus.now) parents.now occupants.old round.now
        occupants.new }
{
    let mut id = round.next_id;
    let mut turn = Turn {
        cell: 0,
        draws: Draws::start(round.seed, round.update, 0, Purpose::Place),
    };
    for parent in parents {
        turn = turn_to(turn, *parent, round);
        let placing = place_one(
            torus,
            *parent,
            occupants,
            round.prefer_empty,
            id,
            &mut turn.draws,
        );
        placings.push_reserved(placing);
        id += 1;
    }
}

/// The stream of this cell: a cell that comes again goes on in its own.
fn turn_to(turn: Turn, cell: u32, round: &PlacingRound) -> Turn
    requires cell { cell < 65536 }
    requires stream { turn.draws ≡ place_stream round.now turn.cell turn.draws.taken }
    ensures cell { result.cell ≡ cell }
    ensures draws { result.draws
        ≡ place_stream round.now cell (if turn.cell == cell then turn.draws.taken else 0) }
{
    if turn.cell == cell {
        return turn;
    }
    Turn {
        cell,
        draws: Draws::start(round.seed, round.update, cell, Purpose::Place),
    }
}

/// Places one newborn by the next four words of its parent's stream.
#[tactic(auto, unfolding(crate::specs::Placement::placing_of))]
fn place_one(
    torus: &Torus,
    parent: u32,
    occupants: &mut Occupants,
    prefer_empty: bool,
    id: u64,
    draws: &mut Draws,
) -> Placing
    requires cells { length occupants.old ≡ cells_of (torus_numbers torus.now) }
    requires parent { parent < cells_of (torus_numbers torus.now) }
    requires room { draws.old.taken + 4 < 2 ^ 48 }
    ensures placing { result ≡ placing_of (torus_numbers torus.now) prefer_empty occupants.old id
        parent
        (word_of draws.old draws.old.taken ∷ word_of draws.old (draws.old.taken + 1)
        ∷ word_of draws.old (draws.old.taken + 2) ∷ word_of draws.old (draws.old.taken + 3) ∷ []) }
    ensures in_torus { result.cell < cells_of (torus_numbers torus.now) }
    ensures occupants { occupants.new ≡ slice_set occupants.old result.cell (Some result.id) }
    ensures cells { length occupants.new ≡ cells_of (torus_numbers torus.now) }
    ensures draws { draws.new ≡ after 4 draws.old }
{
    let cell = choose(torus, occupants, prefer_empty, parent, draws.word());
    let over = occupants.at(cell);
    let first = draws.word();
    let second = draws.word();
    let third = draws.word();
    occupants.set(cell, Some(id));
    Placing {
        id,
        cell,
        over,
        inputs: Inputs::of([first, second, third]),
    }
}

/// The cell that a word chooses among the neighbours, or among the empty ones where these are
/// preferred.
#[tactic(auto, unfolding(crate::specs::Placement::chosen_cell))]
fn choose(torus: &Torus, occupants: &Occupants, prefer_empty: bool, parent: u32, word: u32) -> u32
    requires cells { length occupants.now ≡ cells_of (torus_numbers torus.now) }
    requires parent { parent < cells_of (torus_numbers torus.now) }
    ensures value { result ≡ chosen_cell (torus_numbers torus.now) prefer_empty occupants.now parent
        word }
    ensures in_torus { result < cells_of (torus_numbers torus.now) }
{
    let around = neighbours(torus, parent);
    let free = free_among(&around, occupants);
    if prefer_empty && !free.is_empty() {
        return pick(free.as_slice(), word);
    }
    pick(&around, word)
}

/// The cells in which nothing stands.
fn free_among(cells: &[u32], occupants: &Occupants) -> ArrayVec<u32, 8>
    requires few { length cells.now ≤ 8 }
    requires in_torus { All (λ cell. cell < length occupants.now) cells.now }
    ensures free { result.items ≡ filter (is_free occupants.now) cells.now }
    ensures in_torus { All (λ cell. cell < length occupants.now) result.items }
{
    let mut free = ArrayVec::new();
    for cell in cells {
        if occupants.at(*cell).is_none() {
            free.push(*cell);
        }
    }
    free
}

/// The entry of a list that a word chooses.
fn pick(cells: &[u32], word: u32) -> u32
    requires some { 0 < length cells.now }
    requires few { length cells.now ≤ 8 }
    ensures { result ≡ chosen_from cells.now word }
{
    cells[scaled(word, cells.len() as u32) as usize]
}
