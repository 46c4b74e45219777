// What the lives of an update leave beside the cells.
ghost use Rattle.std.specs.Prelude.{◌≡◌, IfOk, slice_index_or};

use avida_port::Memory;
use cell_shards::Delivered;
use std::alloc::Global;

/// Who was born and who died of age in an update, by the cells and by their ids as it began.
#[derive(Drop)]
pub(crate) struct Lived {
    /// The newborns, in order of their parents' cells and, within a cell, of birth.
    pub(crate) born: Vec<Delivered>,
    /// The cells that were left by death.
    pub(crate) died: Vec<u32>,
    /// The id of each cell as the update began, and so of the parent in it and of who died there.
    pub(crate) ids: Vec<u64>,
}

/// A copy of the ids.
pub(crate) fn copy_of(alloc: Global, ids: &[u64]) -> Result<Vec<u64>, Memory>
    ensures { IfOk result (λ copy. copy.items ≡ ids.now) }
{
    let mut copy = Vec::with_capacity(alloc, ids.len())?;
    copy.extend_from_slice(ids)?;
    Ok(copy)
}

/// The id of a cell, 0 where there is none for it.
pub(crate) fn id_in(ids: &[u64], cell: u32) -> u64
    ensures { result ≡ slice_index_or ids.now cell 0 }
{
    match ids.get(cell as usize) {
        Some(id) => *id,
        None => 0,
    }
}
