// The cells of a world in shards, and what their lives leave as one again.
ghost use Rattle.std.specs.Prelude.{◌≡◌, ◌+◌, ◌<◌, ◌≤◌, ◌^◌, ◌++◌, ◌∷◌, [], List, All, IfOk, Ok, drop, length, map, sum, take};
ghost use Rattle.world_core.specs.Prelude.{IsPermutation, IsPrefix, IsYoung, births_from, deaths_from, left_in, part_from, round_numbers, shard_lives_of, standing_in, IsNumbered, birth_of, all_shares, own_calls_of};
ghost use Rattle.world_core.specs.Scenes.{TakesIn};
ghost use Rattle.world_core.specs.Population.{AreDifferent};
ghost use Rattle.world_core.specs.Sharding.{IsJoined, PartCells, ShareLoad, ShareSeat, seat_from, seat_without, shards_for};

use crate::genotypes::{Genotypes, len_after};
use crate::loads::{loads_of, start_of};
use crate::pairs::both;
use avida_port::{Gate, Items, Memory};
use cell_shards::laws::{parts_live_as_one, shards_part_the_cells};
use cell_shards::{
    BoxedOrganism, Cells, Delivered, Finished, Job, Round, Slices, Standing, bounds, run_all_beside,
};
use genotype_bank::laws::{calls_number_genotypes, genotypes_are_what_was_interned, numbers_agree};
use genotype_bank::{Bank, Seat};
use random_streams::CELLS;
use std::alloc::Global;
use std::sync::Wait;
use std::thread::Threads;

/// The cells after an update without the dead, what is counted of them, its newborns, and the cells
/// of its dead.
#[derive(Drop)]
pub(crate) struct Ended {
    pub(crate) organisms: Vec<Option<BoxedOrganism>>,
    pub(crate) standings: Vec<Option<Standing>>,
    pub(crate) births: Vec<Delivered>,
    pub(crate) dead: Vec<u32>,
}

/// All cells live for an update, in shards, by as many threads as there are workers. One worker has
/// the cells as they are, and nothing is moved. The calling thread does `meanwhile` once the others
/// have begun. After `Memory` all is gone.
pub(crate) fn live_in_shards<
    R: Threads + Wait + Sync,
    G: Gate + Sync,
    T: Drop,
    F: FnOnce() -> T + Drop,
>(
    rt: &R,
    alloc: Global,
    genotypes: Genotypes,
    cells: Vec<Option<BoxedOrganism>>,
    slices: Vec<u64>,
    round: &Round,
    workers: u32,
    gate: &G,
    meanwhile: F,
) -> Result<(Genotypes, Ended, T), Memory>
    requires cells { (1 ≤ length cells.items) × (length cells.items ≤ CELLS) }
    requires slices { length slices.items ≡ length cells.items }
    requires few { All (λ steps. steps < 2 ^ 27) slices.items }
    requires total { sum slices.items ≤ 65536000 }
    requires young { All IsYoung cells.items }
    requires workers { (1 ≤ workers) × (workers ≤ 64) }
    requires meanwhile { F.pre meanwhile }
    ensures cells { IfOk result (λ next. next.1.organisms.items ≡ map left_in
        (shard_lives_of (round_numbers round.now) (part_from 0 cells.items slices.items))) }
    ensures standings { IfOk result
        (λ next. next.1.standings.items ≡ map standing_in next.1.organisms.items) }
    ensures births { IfOk result (λ next. map birth_of next.1.births.items ≡ births_from 0
        (shard_lives_of (round_numbers round.now) (part_from 0 cells.items slices.items))) }
    ensures dead { IfOk result (λ next. next.1.dead.items ≡ deaths_from 0
        (shard_lives_of (round_numbers round.now) (part_from 0 cells.items slices.items))) }
    ensures bank { IfOk result (λ next. TakesIn genotypes next.0 next.1.births.items) }
    ensures different { IfOk result (λ next. AreDifferent next.0) }
    ensures meanwhile { IfOk result (λ next. F.post meanwhile next.2) }
{
    calls_number_genotypes();
    genotypes_are_what_was_interned();
    numbers_agree();
    parts_live_as_one();
    let Genotypes { bank, seat, len } = genotypes;
    seat.owns_all();
    let whole = job_from(0, cells, slices, seat);
    let jobs = jobs_of(alloc, &bank, whole, shards_for(workers))?;
    let threads = workers as usize;
    let (shards, outcome) = run_all_beside(
        rt, alloc, jobs, threads, &bank, round, gate, meanwhile,
    )?;
    let Finished {
        cells,
        standings,
        births,
        dead,
        seat,
        ..
    } = join_all(&bank, shards)?;
    seat.owns_all();
    let len = len_after(len, births.as_slice());
    let genotypes = Genotypes { bank, seat, len };
    let ended = Ended {
        organisms: cells.into_vec(),
        standings: standings.into_vec(),
        births: births.into_vec(),
        dead: dead.into_vec(),
    };
    Ok((genotypes, ended, outcome))
}

/// Into how many shards the cells are cut. The threads take shard after shard, so the smaller the
/// shards are, the less one waits for the others at the end.
fn shards_for(workers: u32) -> u32
    requires { (1 ≤ workers) × (workers ≤ 64) }
    ensures count { result ≡ shards_for workers }
    ensures few { (1 ≤ result) × (result ≤ 64) }
{
    if workers == 1 { 1 } else { workers.max(32) }
}

/// The job of all cells cut into one for each shard, cut off from the last to the first, so that
/// each is about as much work. The first keeps the seat; each other has one that was split from it.
fn jobs_of(alloc: Global, bank: &Bank, whole: Job, shards: u32) -> Result<Vec<Job>, Memory>
    requires cells { (whole.first ≡ 0) × (length whole.cells ≤ CELLS) }
    requires slices { length whole.slices ≡ length whole.cells }
    requires few { All (λ steps. steps < 2 ^ 27) whole.slices }
    requires total { sum whole.slices ≤ 65536000 }
    requires shards { (1 ≤ shards) × (shards ≤ 64) }
    requires seat { (whole.seat.bank ≡ bank.now) × (whole.seat.share ≡ all_shares) }
    ensures parts { IfOk result (λ jobs. PartCells jobs.items whole.cells whole.slices
        × ShareSeat whole.seat jobs.items × (length jobs.items ≤ 64)) }
    ensures load { IfOk result (λ jobs. ShareLoad shards whole.slices jobs.items) }
{
    if shards == 1 {
        return one_job(alloc, whole);
    }
    shards_part_the_cells();
    let mut loads = loads_of(alloc, whole.slices.as_slice())?;
    let all: u64 = loads.iter().sum();
    let mut before = all;
    let mut jobs = Vec::with_capacity(alloc, shards as usize)?;
    let mut rest = whole;
    let mut shard = shards - 1;
    while shard > 0 {
        let (share, _) = bounds(all.max(1) as u32, shards, shard);
        let start = start_of(&loads, before, u64::from(share));
        before = start.before;
        loads.truncate(start.cell);
        let (front, job) = cut(bank, rest, start.cell)?;
        jobs.push_reserved(job);
        rest = front;
        shard -= 1;
    }
    jobs.push_reserved(rest);
    jobs.reverse();
    Ok(jobs)
}

/// A list of this job.
fn one_job(alloc: Global, job: Job) -> Result<Vec<Job>, Memory>
    ensures { IfOk result (λ jobs. jobs.items ≡ job ∷ []) }
{
    let mut jobs = Vec::with_capacity(alloc, 1)?;
    jobs.push_reserved(job);
    Ok(jobs)
}

/// The cells from the first one on as a job.
fn job_from(first: u32, cells: Vec<Option<BoxedOrganism>>, slices: Vec<u64>, seat: Seat) -> Job
    ensures { result ≡ record {
      first = first;
      cells = cells.items;
      slices = slices.items;
      seat = seat;
    } }
{
    Job {
        first,
        cells: Cells::from_vec(cells),
        slices: Slices::from_vec(slices),
        seat,
    }
}

/// The job of the first cells in two. Those from this one on have a seat that was split from the
/// other.
fn cut(bank: &Bank, whole: Job, start: usize) -> Result<(Job, Job), Memory>
    requires cells { (start ≤ length whole.cells) × (start ≤ length whole.slices) }
    requires small { start < 2 ^ 32 }
    requires seat { (whole.seat.bank ≡ bank.now) × (2 ≤ whole.seat.share) }
    ensures { IfOk result (λ parts. (parts.0 ≡ record {
      first = 0;
      cells = take start whole.cells;
      slices = take start whole.slices;
      seat = seat_without whole.seat 1;
    }) × (parts.1 ≡ record {
      first = start;
      cells = drop start whole.cells;
      slices = drop start whole.slices;
      seat = seat_from whole.seat;
    })) }
{
    let mut cells = whole.cells.into_vec();
    let mut slices = whole.slices.into_vec();
    let mut seat = whole.seat;
    let (part, steps) = both(cells.split_off(start), slices.split_off(start))?;
    let back = job_from(start as u32, part, steps, bank.split(&mut seat));
    Ok((job_from(0, cells, slices, seat), back))
}

/// All shards as one, joined in their order.
fn join_all(bank: &Bank, shards: Vec<Finished>) -> Result<Finished, Memory>
    requires some { 0 < length shards.items }
    requires seats { All (λ one. one.seat.bank ≡ bank.now) shards.items }
    requires numbers { All (λ one. All (IsNumbered one.seat.seen) one.births) shards.items }
    ensures { IfOk result (λ whole. (first : Finished) → (others : List Finished)
        → shards.items ≡ first ∷ others → IsJoined first others whole) }
{
    calls_number_genotypes();
    let mut shards = shards.into_iter();
    let mut whole = match shards.next() {
        Some(first) => first,
        None => unreachable!(),
    };
    for next in shards {
        whole = join_two(bank, whole, next)?;
    }
    Ok(whole)
}

/// A shard behind another.
fn join_two(bank: &Bank, front: Finished, back: Finished) -> Result<Finished, Memory>
    requires front { front.seat.bank ≡ bank.now }
    requires back { back.seat.bank ≡ bank.now }
    ensures cells { IfOk result (λ whole. whole.cells ≡ front.cells ++ back.cells) }
    ensures standings { IfOk result
        (λ whole. whole.standings ≡ front.standings ++ back.standings) }
    ensures births { IfOk result (λ whole. whole.births ≡ front.births ++ back.births) }
    ensures dead { IfOk result (λ whole. whole.dead ≡ front.dead ++ back.dead) }
    ensures bank { IfOk result (λ whole. whole.seat.bank ≡ front.seat.bank) }
    ensures share { IfOk result
        (λ whole. whole.seat.share ≡ front.seat.share + back.seat.share) }
    ensures seen { IfOk result (λ whole. IsPrefix front.seat.seen whole.seat.seen
        × IsPrefix back.seat.seen whole.seat.seen) }
    ensures own { IfOk result (λ whole. IsPermutation
        (own_calls_of front.seat ++ own_calls_of back.seat) (own_calls_of whole.seat)) }
{
    let first = front.first;
    let cells = appended(front.cells, back.cells);
    let standings = appended(front.standings, back.standings);
    let births = appended(front.births, back.births);
    let dead = appended(front.dead, back.dead);
    let seat = bank.join(front.seat, back.seat);
    let ((cells, standings), (births, dead)) = both(both(cells, standings), both(births, dead))?;
    Ok(Finished {
        first,
        cells,
        standings,
        births,
        dead,
        seat,
    })
}

/// A list and then another.
fn appended<T: Drop>(front: Items<T>, back: Items<T>) -> Result<Items<T>, Memory>
    ensures { IfOk result (λ all. all ≡ front ++ back) }
{
    let mut front = front.into_vec();
    let mut back = back.into_vec();
    front.append(&mut back)?;
    Ok(Items::from_vec(front))
}
