// Who stands in each cell.
ghost use Rattle.std.specs.Prelude.{◌≡◌, ◌<◌, None, Some, IfOk, length, replicate, slice_get, slice_set, true};
ghost use Rattle.lineage_log.specs.Reader.{holds, taken};

use avida_port::Memory;
use std::alloc::Global;
use std::marker::Model;

/// For each cell the id that stands in it, with their number.
#[derive(Drop)]
pub struct Slots {
    ids: Vec<Option<u64>>,
    count: u64,
}

impl Model for Slots {
    ghost use Rattle.std.specs.Prelude.{ℕ, ◌≡◌, List, Option};
    ghost use Rattle.lineage_log.specs.Reader.{taken};

    ghost Value = { List (Option ℕ) };

    ghost view = { λ s. s.ids.items };

    ghost invariant = { λ s. s.count ≡ taken s.ids.items };
}

impl Slots {
    /// One id in one of so many cells.
    pub fn with_one(alloc: Global, cells: usize, cell: usize, id: u64) -> Result<Slots, Memory>
        requires { cell < cells }
        ensures { IfOk result (λ slots. slots ≡ slice_set (replicate cells None) cell (Some id)) }
    {
        let mut ids = vec![in alloc; None; cells]?;
        ids[cell] = Some(id);
        Ok(Slots { ids, count: 1 })
    }

    pub fn holds(&self, cell: u32, slot: Option<u64>) -> bool
        ensures holds { result ≡ holds (slice_get self.now cell) slot }
        ensures within { result ≡ true → cell < length self.now }
    {
        match self.ids.get(cell as usize) {
            Some(found) => *found == slot,
            None => false,
        }
    }

    pub fn taken(&self) -> u64
        ensures { result ≡ taken self.now }
    {
        self.count
    }

    pub fn set(&mut self, cell: u32, slot: Option<u64>)
        requires { cell < length self.old }
        ensures { self.new ≡ slice_set self.old cell slot }
    {
        let place = cell as usize;
        if self.ids[place].is_some() {
            self.count -= 1;
        }
        if slot.is_some() {
            self.count += 1;
        }
        self.ids[place] = slot;
    }

    pub fn get(&self, cell: usize) -> Option<u64>
        requires { cell < length self.now }
        ensures { slice_get self.now cell ≡ Some result }
    {
        self.ids[cell]
    }

    pub fn cells(&self) -> usize
        ensures { result ≡ length self.now }
    {
        self.ids.len()
    }
}
