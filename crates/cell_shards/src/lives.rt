// The lives of a shard's cells, one after another.
ghost use Rattle.std.specs.Prelude.{◌≡◌, ◌<◌, ◌^◌, ◌∷◌, ◌++◌, [], Some, None, OnOk, IfOk, map, if◌then◌else◌};
ghost use Rattle.organism.specs.Newborns.{newborn_value};
ghost use Rattle.organism.specs.UpdateLife.{is_death};
ghost use Rattle.cell_shards.specs.CellLives.{CanBeMade, organism_once_made, IsYoung, round_numbers, shard_life_of, standing_in};
ghost use Rattle.cell_shards.specs.Finishing.{CanRun, IsFinished, IsToldBehind};

use crate::body::Body;
use crate::boxed_organism::BoxedOrganism;
use crate::delivered::Deliveries;
use crate::delivering::deliver;
use crate::finished::{Dead, Finished};
use crate::job::{Cells, Job};
use crate::looking::{AHEAD, look_ahead};
use crate::round::Round;
use crate::standing::{Standing, Standings};
use avida_port::Memory;
use genotype_bank::{Bank, Seat};
use organism::{Births, Ran};
use random_streams::{CELLS, Draws, Purpose};
use std::alloc::Global;
use std::sync::Wait;

/// What the life of a cell brings.
#[derive(Drop)]
struct Life {
    died: bool,
    births: Births,
}

/// What the lives of the first cells of a shard left beside their organisms, and its seat.
#[derive(Drop)]
pub(crate) struct Left {
    pub(crate) standings: Standings,
    pub(crate) births: Deliveries,
    pub(crate) dead: Dead,
    pub(crate) seat: Seat,
}

/// The job with its cells' lives behind them, and what was seen ahead of them. Where the cells have
/// room for more, so has the list beside them, for both are joined with those of other jobs.
pub(crate) fn live<R: Wait>(
    rt: &R,
    alloc: Global,
    job: Job,
    bank: &Bank,
    round: &Round,
) -> Result<(Finished, u64), Memory>
    requires job { CanRun job }
    requires seat { job.seat.bank ≡ bank.now }
    ensures { IfOk result (λ lived. IsFinished (round_numbers round.now) job lived.0) }
{
    let Job {
        first,
        cells,
        slices,
        seat,
    } = job;
    let mut cells = cells.into_vec();
    let slices = slices.into_vec();
    let mut left = nothing_left(alloc, cells.capacity(), seat)?;
    let mut seen = 0;
    for place in 0..cells.len() {
        if place % AHEAD == 0 {
            seen ^= look_ahead(&cells, place);
        }
        let cell = first + place as u32;
        let slot = &mut cells[place];
        live_at(rt, alloc, bank, round, cell, slices[place], slot, &mut left)?;
    }
    let Left {
        standings,
        births,
        dead,
        seat,
    } = left;
    let finished = Finished {
        first,
        cells: Cells::from_vec(cells),
        standings,
        births,
        dead,
        seat,
    };
    Ok((finished, seen))
}

/// Before any cell has lived, with room for what is counted of so many.
fn nothing_left(alloc: Global, cells: usize, seat: Seat) -> Result<Left, Memory>
    ensures { IfOk result
        (λ left. left ≡ record { standings = []; births = []; dead = []; seat = seat }) }
{
    let standings = Vec::with_capacity(alloc, cells)?;
    Ok(Left {
        standings: Standings::from_vec(standings),
        births: Deliveries::none(alloc),
        dead: Dead::none(alloc),
        seat,
    })
}

/// The life of who stands in the next cell. Its newborns are delivered right after it, so the turns
/// of the bank are spread over the job.
#[inline(always)]
fn live_at<R: Wait>(
    rt: &R,
    alloc: Global,
    bank: &Bank,
    round: &Round,
    cell: u32,
    steps: u64,
    slot: &mut Option<BoxedOrganism>,
    left: &mut Left,
) -> Result<(), Memory>
    requires cell { cell < CELLS }
    requires steps { steps < 2 ^ 27 }
    requires young { IsYoung slot.old }
    requires seat { left.old.seat.bank ≡ bank.now }
    ensures { OnOk result (IsToldBehind cell
        (shard_life_of (round_numbers round.now) cell steps slot.old) slot.new left.old left.new) }
{
    let life = live_in(alloc, round, cell, steps, slot)?;
    bury(slot, life.died, cell, &mut left.dead)?;
    left.standings.push(standing_in(slot))?;
    deliver(
        rt,
        alloc,
        bank,
        &mut left.seat,
        cell,
        life.births,
        &mut left.births,
    )
}

/// The life of who stands in a cell.
#[tactic(auto, unfolding(organism::specs::Lived::life_by))]
fn live_in(
    alloc: Global,
    round: &Round,
    cell: u32,
    steps: u64,
    slot: &mut Option<BoxedOrganism>,
) -> Result<Life, Memory>
    requires cell { cell < CELLS }
    requires steps { steps < 2 ^ 27 }
    requires young { IsYoung slot.old }
    ensures { IfOk result (λ life. shard_life_of (round_numbers round.now) cell steps slot.old
        ≡ record {
          organism = slot.new;
          died = life.died;
          newborns = map newborn_value life.births;
        }) }
{
    match slot {
        Some(organism) => live_once(alloc, round, cell, steps, &mut organism.inner),
        None => Ok(Life {
            died: false,
            births: Births::none(alloc),
        }),
    }
}

/// The life of who is in a body, with the run stream of its cell.
fn live_once(
    alloc: Global,
    round: &Round,
    cell: u32,
    steps: u64,
    body: &mut Body,
) -> Result<Life, Memory>
    requires cell { cell < CELLS }
    requires steps { steps < 2 ^ 27 }
    requires makeable { CanBeMade body.old.pending }
    requires young { (organism_once_made body.old.organism body.old.pending).age < 2 ^ 62 }
    ensures made { body.new.pending ≡ None }
    ensures life { IfOk result
        (λ life. shard_life_of (round_numbers round.now) cell steps
        (Some (organism_once_made body.old.organism body.old.pending))
        ≡ record {
          organism = Some body.new.organism;
          died = life.died;
          newborns = map newborn_value life.births;
        }) }
{
    let mut births = Births::none(alloc);
    let mut draws = Draws::start(round.seed, round.update, cell, Purpose::Run);
    body.make(alloc)?;
    let organism = &mut body.organism;
    let ran = organism.run(alloc, steps, &round.settings, &mut draws, &mut births)?;
    Ok(Life {
        died: is_death(ran),
        births,
    })
}

fn is_death(ran: Ran) -> bool
    ensures { result ≡ is_death ran }
{
    match ran {
        Ran::Lives => false,
        Ran::Died { .. } => true,
    }
}

/// The dead leave their cells, which are listed.
fn bury(
    slot: &mut Option<BoxedOrganism>,
    died: bool,
    cell: u32,
    dead: &mut Dead,
) -> Result<(), Memory>
    ensures slot { OnOk result (slot.new ≡ (if died then None else slot.old)) }
    ensures dead { OnOk result (dead.new ≡ dead.old ++ (if died then cell ∷ [] else [])) }
{
    if died {
        *slot = None;
        dead.push(cell)?;
    }
    Ok(())
}

/// What is counted of who stands in a cell.
fn standing_in(slot: &Option<BoxedOrganism>) -> Option<Standing>
    ensures { result ≡ standing_in slot.now }
{
    match slot {
        Some(organism) => Some(organism.standing()),
        None => None,
    }
}
