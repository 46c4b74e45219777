// Who stands in each cell, the organisms apart from their ids and from what is counted of them.
ghost use Rattle.std.specs.Prelude.{◌≡◌, ◌<◌, None, Some, IfOk, length, option_map, replicate, slice_index_or, slice_set};
ghost use Rattle.world_core.specs.Prelude.{standing_in, letters, organism_in, id_of, ids_of};
ghost use Rattle.world_core.specs.Population.{occupant_genome};
ghost use Rattle.world_core.specs.Scenes.{IsResidentIn};

use avida_port::Memory;
use cell_shards::{BoxedOrganism, Standing};
use genome::Genome;
use saved_lines::Resident;
use std::alloc::{AllocError, Global};
use std::marker::Model;

/// The organism of each cell, the id of who stands there, and what is counted of it. The lives of
/// an update need only the organisms, which a shard takes with it.
#[derive(Drop)]
pub(crate) struct CellTable {
    pub(crate) organisms: Vec<Option<BoxedOrganism>>,
    /// Where nobody stands the number means nothing.
    pub(crate) ids: Vec<u64>,
    /// What is counted of the organisms, so that counting reads none of them.
    pub(crate) standings: Vec<Option<Standing>>,
}

impl Model for CellTable {
    ghost use Rattle.std.specs.Prelude.{List, Option};
    ghost use Rattle.world_rules.specs.World.{Occupant};

    ghost Value = { List (Option Occupant) };

    ghost use Rattle.world_core.specs.Population.{AreKeptBeside, occupants_of};

    ghost view = { λ r. occupants_of r.organisms.items r.ids.items };

    ghost invariant = { λ r. AreKeptBeside r.organisms.items r.ids.items r.standings.items };
}

impl CellTable {
    /// So many cells in which nobody stands.
    pub(crate) fn none(alloc: Global, cells: u32) -> Result<CellTable, Memory>
        ensures { IfOk result (λ table. table ≡ replicate cells None) }
    {
        Ok(CellTable {
            organisms: empty_cells(alloc, cells)?,
            ids: vec![in alloc; 0; cells as usize]?,
            standings: empty_cells(alloc, cells)?,
        })
    }

    /// How many cells there are.
    pub(crate) fn len(&self) -> usize
        ensures { result ≡ length self.now }
    {
        self.organisms.len()
    }

    /// The genome of who stands in the cell.
    #[tactic(auto, using(crate::proofs::CellTableLemmas::has_slot))]
    pub(crate) fn genome_at(&self, cell: usize) -> Option<&Genome>
        requires { cell < length self.now }
        ensures { option_map (λ genome. letters genome.now) result
            ≡ occupant_genome (slice_index_or self.now cell None) }
    {
        match &self.organisms[cell] {
            Some(organism) => Some(organism.genome()),
            None => None,
        }
    }

    /// What is counted of who stands in the cell.
    #[tactic(auto, using(crate::proofs::CellTableLemmas::has_standing))]
    pub(crate) fn standing_at(&self, cell: usize) -> Option<Standing>
        requires { cell < length self.now }
        ensures { result ≡ standing_in (organism_in (slice_index_or self.now cell None)) }
    {
        self.standings[cell]
    }

    /// The id of who stands in the cell.
    #[tactic(auto, using(crate::proofs::CellTableLemmas::has_slot, crate::proofs::CellTableLemmas::has_id))]
    pub(crate) fn id_at(&self, cell: usize) -> Option<u64>
        requires { cell < length self.now }
        ensures { result ≡ id_of (slice_index_or self.now cell None) }
    {
        match &self.organisms[cell] {
            Some(_) => Some(self.ids[cell]),
            None => None,
        }
    }

    /// Who stands in the cell, with all values.
    #[tactic(auto, using(crate::proofs::CellTableLemmas::has_slot, crate::proofs::CellTableLemmas::has_id))]
    pub(crate) fn resident_at(&self, alloc: Global, cell: u32) -> Result<Option<Resident>, Memory>
        requires { cell < length self.now }
        ensures { IfOk result (IsResidentIn cell (slice_index_or self.now cell None)) }
    {
        match &self.organisms[cell as usize] {
            Some(organism) => Ok(Some(Resident {
                cell,
                id: self.ids[cell as usize],
                image: organism.image(alloc)?,
            })),
            None => Ok(None),
        }
    }

    /// The id of who stands in each cell.
    pub(crate) fn all_ids(&self, alloc: Global) -> Result<Vec<Option<u64>>, AllocError>
        ensures { IfOk result (λ ids. ids.items ≡ ids_of self.now) }
    {
        let count = self.len();
        let mut ids = Vec::with_capacity(alloc, count)?;
        for cell in 0..count {
            ids.push_reserved(self.id_at(cell));
        }
        Ok(ids)
    }

    /// Nobody stands in the cell any longer; the result is who did.
    #[tactic(auto, using(crate::proofs::CellTableLemmas::has_slot, crate::proofs::CellTableLemmas::has_standing))]
    pub(crate) fn take(&mut self, cell: usize) -> Option<BoxedOrganism>
        requires { cell < length self.old }
        ensures after { self.new ≡ slice_set self.old cell None }
        ensures who { result ≡ organism_in (slice_index_or self.old cell None) }
    {
        self.standings[cell] = None;
        self.organisms[cell].take()
    }

    /// Somebody with this id stands in the cell.
    #[tactic(auto, using(crate::proofs::CellTableLemmas::has_slot, crate::proofs::CellTableLemmas::has_id, crate::proofs::CellTableLemmas::has_standing))]
    pub(crate) fn put(&mut self, cell: usize, id: u64, organism: BoxedOrganism)
        requires { cell < length self.old }
        ensures { self.new
            ≡ slice_set self.old cell (Some (record { id = id; organism = organism })) }
    {
        self.standings[cell] = Some(organism.standing());
        self.organisms[cell] = Some(organism);
        self.ids[cell] = id;
    }
}

/// So many cells that have nothing.
fn empty_cells<T: Drop>(alloc: Global, count: u32) -> Result<Vec<Option<T>>, Memory>
    ensures { IfOk result (λ cells. cells.items ≡ replicate count None) }
{
    let mut cells = Vec::with_capacity(alloc, count as usize)?;
    for _ in 0..count {
        cells.push_reserved(None);
    }
    Ok(cells)
}
