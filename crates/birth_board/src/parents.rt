ghost use Rattle.std.specs.Prelude.{◌≡◌, ◌<◌, ◌≤◌, ◌++◌, All, IfOk, OnOk, length, replicate};
ghost use Rattle.std.specs.List.Sorted.{IsNonDecreasing};
ghost use Rattle.birth_board.specs.Placement.{parents_of};

use avida_port::{Items, Memory};
use std::alloc::Global;

/// The cells of parents, one for each newborn.
pub type Parents = Items<u32>;

/// Lists each cell as often as `counts` says, in the order of the cells.
pub fn gather(alloc: Global, counts: &[u32]) -> Result<Parents, Memory>
    requires { length counts.now ≤ 65536 }
    ensures parents { IfOk result (λ parents. parents ≡ parents_of counts.now) }
    ensures rising { IfOk result (λ parents. IsNonDecreasing parents) }
    ensures counted { IfOk result (λ parents. All (λ cell. cell < length counts.now) parents) }
{
    let mut cells = Vec::new(alloc);
    for (cell, count) in counts.iter().enumerate() {
        append(&mut cells, cell as u32, *count)?;
    }
    Ok(Parents::from_vec(cells))
}

/// Appends a cell so many times.
fn append(cells: &mut Vec<u32>, cell: u32, count: u32) -> Result<(), Memory>
    ensures { OnOk result (cells.new.items ≡ cells.old.items ++ replicate count cell) }
{
    for _ in 0..count {
        cells.push(cell)?;
    }
    Ok(())
}
