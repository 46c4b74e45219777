// The jobs of an update, each run by the thread that takes it first.
ghost use denote.Param.Send.{IsSync};
ghost use Rattle.std.specs.Prelude.{◌≡◌, ◌++◌, ◌<◌, ◌≤◌, All, IfOk, OnOk, length};
ghost use Rattle.cell_shards.specs.CellLives.{round_numbers};
ghost use Rattle.cell_shards.specs.Finishing.{AreFinished, CanRun, HasRun};

use crate::done::Done;
use crate::finished::Finished;
use crate::gathering::in_order;
use crate::job::Job;
use crate::lives::live;
use crate::pool::{Pool, PoolSeat};
use crate::round::Round;
use avida_port::{Gate, Memory};
use genotype_bank::Bank;
use std::alloc::Global;
use std::sync::Wait;
use std::thread;
use std::thread::Threads;

/// Runs the cells of each job, and interns each newborn's genome, by as many threads as there are
/// jobs; the list is in order of the jobs. Each thread passes the gate once, before its cells. It
/// may wait for other seats of the bank. After `Memory` the jobs and their seats are gone.
pub fn run_all<R: Threads + Wait + Sync, G: Gate + Sync>(
    rt: &R,
    alloc: Global,
    jobs: Vec<Job>,
    bank: &Bank,
    round: &Round,
    gate: &G,
) -> Result<Vec<Finished>, Memory>
    requires jobs { All CanRun jobs.items }
    requires seats { All (λ job. job.seat.bank ≡ bank.now) jobs.items }
    ensures { IfOk result (λ all. AreFinished (round_numbers round.now) jobs.items all.items) }
{
    let workers = jobs.len();
    let (all, ()) = run_all_beside(rt, alloc, jobs, workers, bank, round, gate, || ())?;
    Ok(all)
}

/// The same with `workers` threads, but at least one and at most one a job. Each takes a job that
/// no other has taken, until all are taken; so a thread that is held up runs fewer of them. The
/// calling thread does `meanwhile` once the others have begun, and its result is handed back.
pub fn run_all_beside<R: Threads + Wait + Sync, G: Gate + Sync, T: Drop, F: FnOnce() -> T + Drop>(
    rt: &R,
    alloc: Global,
    jobs: Vec<Job>,
    workers: usize,
    bank: &Bank,
    round: &Round,
    gate: &G,
    meanwhile: F,
) -> Result<(Vec<Finished>, T), Memory>
    requires jobs { All CanRun jobs.items }
    requires seats { All (λ job. job.seat.bank ≡ bank.now) jobs.items }
    requires meanwhile { F.pre meanwhile }
    ensures finished { IfOk result
        (λ ran. AreFinished (round_numbers round.now) jobs.items ran.0.items) }
    ensures meanwhile { IfOk result (λ ran. F.post meanwhile ran.1) }
{
    let workers = workers.min(jobs.len());
    let (pool, seat) = Pool::new(alloc, jobs)?;
    let (done, outcome) = run_together(
        rt, alloc, &pool, seat, workers, bank, round, gate, meanwhile,
    )?;
    Ok((in_order(alloc, &pool, done)?, outcome))
}

/// By so many threads, where they can be made: this thread starts all others, does `meanwhile`,
/// and then takes jobs as they do.
#[cycle(workers)]
fn run_together<R: Threads + Wait + Sync, G: Gate + Sync, T: Drop, F: FnOnce() -> T + Drop>(
    rt: &R,
    alloc: Global,
    pool: &Pool,
    mut seat: PoolSeat,
    workers: usize,
    bank: &Bank,
    round: &Round,
    gate: &G,
    meanwhile: F,
) -> Result<(Vec<Done>, T), Memory>
    requires pool { seat ≡ pool.now }
    requires few { workers ≤ length pool.now.jobs }
    requires jobs { All (λ job. CanRun job × (job.seat.bank ≡ bank.now)) pool.now.jobs }
    requires meanwhile { F.pre meanwhile }
    ensures done { IfOk result
        (λ ran. All (HasRun (round_numbers round.now) pool.now.jobs) ran.0.items) }
    ensures meanwhile { IfOk result (λ ran. F.post meanwhile ran.1) }
{
    if workers <= 1 {
        let outcome = meanwhile();
        let done = run_free(rt, alloc, pool, seat, 0, bank, round, gate)?;
        return Ok((done, outcome));
    }
    let worker = workers - 1;
    let theirs = pool.split(&mut seat);
    let there = move || -> Result<Vec<Done>, Memory>
        requires { IsSync R.row × IsSync G.row × (theirs ≡ pool.now)
            × All (λ job. CanRun job × (job.seat.bank ≡ bank.now)) pool.now.jobs }
        ensures { IfOk result (λ done.
            All (HasRun (round_numbers round.entry.now) pool.entry.now.jobs) done.items) }
    { run_free(rt, alloc, pool, theirs, worker, bank, round, gate) };
    let here = move || -> Result<(Vec<Done>, T), Memory>
        requires { IsSync R.row × IsSync G.row × (seat ≡ pool.now)
            × (worker ≤ length pool.now.jobs) × F.pre meanwhile
            × All (λ job. CanRun job × (job.seat.bank ≡ bank.now)) pool.now.jobs }
        ensures { IfOk result (λ ran.
            All (HasRun (round_numbers round.entry.now) pool.entry.now.jobs) ran.0.items
            × F.post meanwhile ran.1) }
    { run_together(rt, alloc, pool, seat, worker, bank, round, gate, meanwhile) };
    let (last, others) = thread::join(rt, there, here);
    let (done, outcome) = others?;
    Ok((both(done, last?)?, outcome))
}

/// What two threads have done.
fn both(mut done: Vec<Done>, mut more: Vec<Done>) -> Result<Vec<Done>, Memory>
    ensures { IfOk result (λ all. all.items ≡ done.items ++ more.items) }
{
    done.append(&mut more)?;
    Ok(done)
}

/// Passes the gate, and then runs one job after another that nobody has taken.
fn run_free<R: Wait, G: Gate>(
    rt: &R,
    alloc: Global,
    pool: &Pool,
    mut seat: PoolSeat,
    worker: usize,
    bank: &Bank,
    round: &Round,
    gate: &G,
) -> Result<Vec<Done>, Memory>
    requires pool { seat ≡ pool.now }
    requires jobs { All (λ job. CanRun job × (job.seat.bank ≡ bank.now)) pool.now.jobs }
    ensures { IfOk result
        (λ done. All (HasRun (round_numbers round.now) pool.now.jobs) done.items) }
{
    gate.pass(u64::from(round.update), worker);
    let mut done = Vec::new(alloc);
    for number in 0..pool.len() {
        run_if_free(rt, alloc, pool, &mut seat, number, bank, round, &mut done)?;
    }
    Ok(done)
}

/// Runs the job of this number, where nobody has taken it.
fn run_if_free<R: Wait>(
    rt: &R,
    alloc: Global,
    pool: &Pool,
    seat: &mut PoolSeat,
    number: usize,
    bank: &Bank,
    round: &Round,
    done: &mut Vec<Done>,
) -> Result<(), Memory>
    requires pool { seat.old ≡ pool.now }
    requires number { number < length pool.now.jobs }
    requires jobs { All (λ job. CanRun job × (job.seat.bank ≡ bank.now)) pool.now.jobs }
    ensures seat { seat.new ≡ seat.old }
    ensures done { OnOk result (All (HasRun (round_numbers round.now) pool.now.jobs) done.old.items
        → All (HasRun (round_numbers round.now) pool.now.jobs) done.new.items) }
{
    let Some(job) = pool.take(seat, number) else {
        return Ok(());
    };
    let (finished, seen) = live(rt, alloc, job, bank, round)?;
    done.push(Done {
        number,
        finished,
        seen,
    })?;
    Ok(())
}
