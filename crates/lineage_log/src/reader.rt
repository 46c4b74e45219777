// What is known of a log between two of its lines.
ghost use Rattle.std.specs.Prelude.{◌≡◌, ◌≢◌, ℕ, ◌+◌, ◌<◌, ◌≤◌, ◌&&◌, ◌==◌, OnOk, IsTrue, ◌*◌, ◌^◌, ◌-◌, option_map, Ok, Err, if◌then◌else◌, length, slice_get, Some};
ghost use Rattle.lineage_log.specs.Prelude.{letters, record_of, End, line_values};
ghost use Rattle.lineage_log.specs.Reader.{holds, taken, is_quiet, may_be_born, may_die, parent_in, reader_with_death, reader_with_newcomer};
ghost use Rattle.lineage_log.specs.Order.{told_birth, told_cleared, told_count, told_death, told_end, told_injected, told_rate, told_start, may_happen, at_next_update, told, Within, After};

use crate::child::{child_in, is_unchanged};
use crate::people::{People, shared_copy};
use crate::reason::Reason;
use crate::refusal::{OUT_OF_ORDER, Refusal};
use crate::slots::Slots;
use crate::stage::Stage;
use avida_port::Memory;
use genome::Genome;
use log_lines::{LogLine, Stats};
use mutations::Origin;
use std::alloc::Global;
use std::rc::Rc;

#[derive(Drop)]
pub struct Reader {
    pub version: u32,
    pub due: u64,
    pub stage: Stage,
    pub standing: Slots,
    pub people: People,
    /// The next id when the update began.
    pub newest: u64,
    /// Who died in the update.
    pub leaving: Vec<u64>,
    pub births: u64,
    ghost few: { births ≤ length people },
}

fn may_die(stage: Stage, cell: u32) -> bool
    ensures { result ≡ may_die stage cell }
{
    match stage {
        Stage::Quiet => true,
        Stage::Dying(last) => last < cell,
        Stage::Placing | Stage::Happening => false,
    }
}

fn may_be_born(stage: Stage) -> bool
    ensures { result ≡ may_be_born stage }
{
    match stage {
        Stage::Happening => false,
        _ => true,
    }
}

fn is_quiet(stage: Stage) -> bool
    ensures { result ≡ is_quiet stage }
{
    match stage {
        Stage::Quiet => true,
        _ => false,
    }
}

impl Reader {
    ghost use Rattle.lineage_log.specs.Readings.{Tells, reader_of, MakesChild};

    /// The reader after the first line.
    #[tactic(auto, unfolding(crate::specs::Order::told_start))]
    pub fn open(
        alloc: Global,
        version: u32,
        width: u32,
        height: u32,
        cell: u32,
        genome: &Genome,
    ) -> Result<Reader, Refusal>
        ensures { Tells (λ reader. Within (reader_of reader)) result
            (told_start version width height cell (letters genome.now)) }
    {
        let cells = u64::from(width) * u64::from(height);
        if u64::from(cell) >= cells {
            return Err(OUT_OF_ORDER);
        }
        let people = People::with_one(alloc, genome)?;
        let standing = Slots::with_one(alloc, cells as usize, cell as usize, 0)?;
        Ok(Reader {
            version,
            due: 1,
            stage: Stage::Quiet,
            standing,
            people,
            newest: 1,
            leaving: Vec::new(alloc),
            births: 0,
        })
    }

    fn may_happen(&self, update: u32) -> bool
        ensures { result ≡ may_happen (reader_of self.now) update }
    {
        self.version == 2 && u64::from(update) == self.due
    }

    /// The id is the next one, and `over` stands in the cell.
    fn may_come(&self, id: u64, cell: u32, over: Option<u64>) -> bool
        ensures test { result
            ≡ ((id == length self.now.people) && holds (slice_get self.now.standing cell) over) }
        ensures within { IsTrue result → cell < length self.now.standing }
        ensures few { IsTrue result → length self.now.people < 2 ^ 63 }
    {
        id == self.people.len() as u64 && self.standing.holds(cell, over)
    }

    /// Who stands in the cell dies.
    fn remove(&mut self, stage: Stage, cell: u32, id: u64) -> Result<(), Memory>
        requires { cell < length self.old.standing }
        ensures { OnOk result (reader_of self.new
            ≡ reader_with_death (reader_of self.old) stage cell id) }
    {
        self.leaving.push(id)?;
        self.standing.set(cell, None);
        self.stage = stage;
        Ok(())
    }

    /// Somebody new stands in the cell.
    fn add(
        &mut self,
        stage: Stage,
        cell: u32,
        over: Option<u64>,
        genome: Rc<Genome>,
        births: u64,
    ) -> Result<(), Memory>
        requires within { cell < length self.old.standing }
        requires few { births ≤ length self.old.people + 1 }
        ensures { OnOk result (reader_of self.new
            ≡ reader_with_newcomer (reader_of self.old) stage cell over
            (letters genome.value) births) }
    {
        let id = self.people.len() as u64;
        self.people.push(genome)?;
        if let Some(over) = over {
            self.leaving.push(over)?;
        }
        self.standing.set(cell, Some(id));
        self.stage = stage;
        self.births = births;
        Ok(())
    }

    #[tactic(auto, unfolding(crate::specs::Order::told_death))]
    pub fn death(&mut self, id: u64, update: u32, cell: u32) -> Result<(), Refusal>
        ensures { Tells (λ done. Within (reader_of self.new)) result
            (told_death (reader_of self.old) id update cell) }
    {
        if u64::from(update) == self.due
            && may_die(self.stage, cell)
            && self.standing.holds(cell, Some(id))
        {
            self.remove(Stage::Dying(cell), cell, id)?;
            Ok(())
        } else {
            Err(OUT_OF_ORDER)
        }
    }

    #[tactic(auto, unfolding(crate::specs::Order::told_cleared))]
    pub fn cleared(&mut self, id: u64, update: u32, cell: u32) -> Result<(), Refusal>
        ensures { Tells (λ done. Within (reader_of self.new)) result
            (told_cleared (reader_of self.old) id update cell) }
    {
        if self.may_happen(update) && self.standing.holds(cell, Some(id)) {
            self.remove(Stage::Happening, cell, id)?;
            Ok(())
        } else {
            Err(OUT_OF_ORDER)
        }
    }

    #[tactic(auto, unfolding(crate::specs::Order::told_rate))]
    pub fn rate(&mut self, update: u32) -> Result<(), Refusal>
        ensures { Tells (λ done. Within (reader_of self.new)) result
            (told_rate (reader_of self.old) update) }
    {
        if self.may_happen(update) {
            self.stage = Stage::Happening;
            Ok(())
        } else {
            Err(OUT_OF_ORDER)
        }
    }

    /// The genome of somebody who lived when the update began.
    fn parent(&self, id: u64) -> Option<&Rc<Genome>>
        ensures { option_map (λ found. letters found.now.value) result
            ≡ parent_in (reader_of self.now) id }
    {
        if id < self.newest {
            self.people.get(id)
        } else {
            None
        }
    }

    /// The child's genome. Where nothing is changed it is the parent's, which they share.
    fn child(&mut self, alloc: Global, parent: u64, origin: &Origin) -> Result<Rc<Genome>, Refusal>
        ensures child { MakesChild (λ child. letters child.value) result
            (parent_in (reader_of self.old) parent) (record_of origin.now) }
        ensures stays { reader_of self.new ≡ reader_of self.old }
    {
        if is_unchanged(origin) {
            return match self.parent(parent) {
                None => Err(Refusal::Faulty(Reason::UnknownParent)),
                Some(genome) => Ok(genome.clone()?),
            };
        }
        let room = self.people.room(alloc);
        let child = match self.parent(parent) {
            None => return Err(Refusal::Faulty(Reason::UnknownParent)),
            Some(genome) => child_in(room, genome, origin)?,
        };
        Ok(self.people.boxed(alloc, child)?)
    }

    #[tactic(auto, unfolding(crate::specs::Order::told_birth))]
    pub fn birth(
        &mut self,
        alloc: Global,
        id: u64,
        parent: u64,
        update: u32,
        cell: u32,
        over: Option<u64>,
        origin: &Origin,
    ) -> Result<(), Refusal>
        ensures { Tells (λ done. Within (reader_of self.new)) result
            (told_birth (reader_of self.old) id parent update cell over (record_of origin.now)) }
    {
        if u64::from(update) == self.due
            && may_be_born(self.stage)
            && self.may_come(id, cell, over)
        {
            let genome = self.child(alloc, parent, origin)?;
            let births = self.births + 1;
            self.add(Stage::Placing, cell, over, genome, births)?;
            Ok(())
        } else {
            Err(OUT_OF_ORDER)
        }
    }

    #[tactic(auto, unfolding(crate::specs::Order::told_injected))]
    pub fn injected(
        &mut self,
        alloc: Global,
        id: u64,
        update: u32,
        cell: u32,
        over: Option<u64>,
        genome: &Genome,
    ) -> Result<(), Refusal>
        ensures { Tells (λ done. Within (reader_of self.new)) result
            (told_injected (reader_of self.old) id update cell over (letters genome.now)) }
    {
        if self.may_happen(update) && self.may_come(id, cell, over) {
            let genome = shared_copy(alloc, genome)?;
            let births = self.births;
            self.add(Stage::Happening, cell, over, genome, births)?;
            Ok(())
        } else {
            Err(OUT_OF_ORDER)
        }
    }

    fn counts_fit(&self, stats: &Stats) -> bool
        ensures small { IsTrue result → self.now.due < 2 ^ 32 }
        ensures test { result
            ≡ ((stats.now.update == self.now.due) && (stats.now.living == taken self.now.standing)
            && (stats.now.births == self.now.births)
            && (stats.now.deaths == length self.now.leaving.items)) }
    {
        u64::from(stats.update) == self.due
            && stats.living == self.standing.taken()
            && stats.births == self.births
            && stats.deaths == self.leaving.len() as u64
    }

    /// The next update is due.
    fn renew(&mut self)
        requires { self.old.due < 2 ^ 64 - 1 }
        ensures { reader_of self.new ≡ at_next_update (reader_of self.old) }
    {
        self.newest = self.people.len() as u64;
        self.people.forget_all(&self.leaving);
        self.leaving.clear();
        self.due += 1;
        self.stage = Stage::Quiet;
        self.births = 0;
    }

    #[tactic(auto, unfolding(crate::specs::Order::told_count))]
    pub fn count(&mut self, stats: &Stats) -> Result<(), Refusal>
        ensures { Tells (λ done. Within (reader_of self.new)) result
            (told_count (reader_of self.old) stats.now) }
    {
        if self.counts_fit(stats) {
            self.renew();
            Ok(())
        } else {
            Err(OUT_OF_ORDER)
        }
    }

    #[tactic(auto, unfolding(crate::specs::Order::told_end))]
    pub fn ends(&self, updates: u32) -> bool
        ensures { told_end (reader_of self.now) updates
            ≡ (if result then Ok (After (reader_of self.now)) else Err Reason.BadOrder) }
    {
        is_quiet(self.stage) && u64::from(updates) + 1 == self.due
    }

    /// One line more that is not the last line.
    pub fn tell(&mut self, alloc: Global, line: &LogLine) -> Result<(), Refusal>
        requires { (updates : ℕ) → line_values line.now ≢ End updates }
        ensures { Tells (λ done. Within (reader_of self.new)) result
            (told (Within (reader_of self.old)) (line_values line.now)) }
    {
        match line {
            LogLine::Start { .. } => Err(OUT_OF_ORDER),
            LogLine::Death { id, update, cell } => self.death(*id, *update, *cell),
            LogLine::Birth {
                id,
                parent,
                update,
                cell,
                over,
                origin,
            } => self.birth(alloc, *id, *parent, *update, *cell, *over, origin),
            LogLine::Injected {
                id,
                update,
                cell,
                over,
                genome,
            } => self.injected(alloc, *id, *update, *cell, *over, genome),
            LogLine::Cleared { id, update, cell } => self.cleared(*id, *update, *cell),
            LogLine::Rate { update, .. } => self.rate(*update),
            LogLine::Count(stats) => self.count(stats),
            LogLine::End { .. } => unreachable!(),
        }
    }
}
