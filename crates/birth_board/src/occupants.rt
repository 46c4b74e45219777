ghost use Rattle.std.specs.Prelude.{◌≡◌, ◌<◌, IfOk, None, length, replicate, slice_index_or, slice_set};
ghost use Rattle.birth_board.specs.Torus.{torus_numbers, cells_of};

use crate::Torus;
use avida_port::Memory;
use std::alloc::Global;
use std::marker::Model;

/// For each cell the id of the organism that stands in it, if any.
#[derive(Debug, Drop)]
pub struct Occupants {
    ids: Vec<Option<u64>>,
}

impl Model for Occupants {
    ghost use Rattle.std.specs.Prelude.{List, Option, ℕ};

    ghost Value = { List (Option ℕ) };

    ghost view = { λ a. a.ids.items };
}

impl Occupants {
    pub fn empty(alloc: Global, torus: &Torus) -> Result<Occupants, Memory>
        ensures { IfOk result (λ occupants. occupants
            ≡ replicate (cells_of (torus_numbers torus.now)) None) }
    {
        let cells = torus.width as usize * torus.height as usize;
        Ok(Occupants {
            ids: vec![in alloc; None; cells]?,
        })
    }

    pub fn from_vec(ids: Vec<Option<u64>>) -> Occupants
        ensures { result ≡ ids.items }
    {
        Occupants { ids }
    }

    /// None exactly where nothing stands in the cell.
    pub fn at(&self, cell: u32) -> Option<u64>
        requires { cell < length self.now }
        ensures { result ≡ slice_index_or self.now cell None }
    {
        self.ids[cell as usize]
    }

    pub fn set(&mut self, cell: u32, id: Option<u64>)
        requires { cell < length self.old }
        ensures { self.new ≡ slice_set self.old cell id }
    {
        self.ids[cell as usize] = id;
    }
}
