// A world within an update.
ghost use Rattle.std.specs.Prelude.{◌≡◌, ◌+◌, ◌++◌, ◌∷◌, [], ◌<◌, ◌≤◌, ◌^◌, Some, IfOk, None, OnOk, drop, length, option_map, replicate, slice_get, slice_index_or, slice_set};
ghost use Rattle.world_core.specs.Prelude.{letters, with_genome, record_of, forgotten, values_of, next_id, standing_at, with_death, organism_in, scene_stats, world_after};
ghost use Rattle.world_core.specs.Bounds.{CanStand};
ghost use Rattle.world_core.specs.Scenes.{scene_in, with_occupant};

use crate::everyone::Everyone;
use crate::population::Population;
use avida_port::Memory;
use cell_shards::BoxedOrganism;
use genome::Genome;
use genotype_bank::Handle;
use lineage_log::{Ancestor, Provenance};
use log_lines::Stats;
use mutations::Origin;
use random_streams::CELLS;
use std::alloc::Global;
use std::marker::Model;
use std::mem;
use std::sync::{Arc, Wait};
use world_config::Config;

/// Who stands in each cell, all organisms ever in the world by id, and who died in this update.
#[derive(Drop)]
pub(crate) struct Scene {
    pub(crate) update: u32,
    pub(crate) cells: Population,
    pub(crate) everyone: Everyone,
    pub(crate) gone: Vec<u64>,
}

impl Model for Scene {
    ghost use Rattle.world_core.specs.Bounds.{AreBounded};
    ghost use Rattle.world_core.specs.Scenes.{SceneValue};

    ghost Value = { SceneValue };

    ghost view = { λ s. record {
      update = s.update;
      cells = s.cells.cells;
      everyone = s.everyone.links;
      first = s.everyone.first;
      gone = s.gone.items;
      bank = s.cells.bank;
    } };

    ghost invariant = { λ s. AreBounded s.update s.cells.cells };
}

impl Scene {
    /// So many cells in which nobody stands, and an empty bank.
    #[tactic(auto, using(crate::proofs::BoundedCells::AreBounded_none))]
    pub(crate) fn none(
        alloc: Global,
        update: u32,
        cells: u32,
        everyone: Everyone,
    ) -> Result<Scene, Memory>
        requires { cells ≤ CELLS }
        ensures { IfOk result (λ scene. scene ≡ record {
          update = update;
          cells = replicate cells None;
          everyone = everyone.links;
          first = everyone.first;
          gone = [];
          bank = [];
        }) }
    {
        Ok(Scene {
            update,
            cells: Population::none(alloc, cells)?,
            everyone,
            gone: Vec::new(alloc),
        })
    }

    pub(crate) fn next_id(&self) -> u64
        ensures { result ≡ next_id (scene_in self.now) }
    {
        self.everyone.len()
    }

    /// The id of who stands in the cell.
    pub(crate) fn standing_at(&self, cell: u32) -> Option<u64>
        requires { cell < length self.now.cells }
        ensures { result ≡ standing_at (scene_in self.now) cell }
    {
        self.cells.cells().id_at(cell as usize)
    }

    /// Who stands in the cell dies, and is what the result has. After `Memory` drop the scene.
    #[tactic(auto, unfolding(world_rules::specs::World::with_death), using(crate::proofs::BoundedCells::AreBounded_gone))]
    pub(crate) fn kill(&mut self, cell: u32) -> Result<Option<BoxedOrganism>, Memory>
        requires { cell < length self.old.cells }
        ensures scene { OnOk result (scene_in self.new ≡ with_death (scene_in self.old) cell) }
        ensures who { IfOk result
            (λ who. who ≡ organism_in (slice_index_or self.old.cells cell None)) }
        ensures bank { OnOk result (self.new.bank ≡ self.old.bank) }
        ensures size { OnOk result (length self.new.cells ≡ length self.old.cells) }
        ensures everyone { OnOk result (self.new.everyone ≡ self.old.everyone) }
        ensures first { OnOk result (self.new.first ≡ self.old.first) }
    {
        if let Some(id) = self.standing_at(cell) {
            self.gone.push(id)?;
        }
        Ok(self.cells.take(cell))
    }

    /// Interns the genome of a founder. After `Memory` drop the scene.
    pub(crate) fn intern<R: Wait>(
        &mut self,
        rt: &R,
        alloc: Global,
        genome: Genome,
    ) -> Result<Handle, Memory>
        ensures scene { OnOk result (self.new
            ≡ record self.old { bank = with_genome self.old.bank (letters genome) }) }
        ensures genome { IfOk result (λ handle. letters handle.genome.value ≡ letters genome) }
        ensures number { IfOk result (λ handle.
            slice_get self.new.bank handle.number ≡ Some (letters genome)) }
    {
        self.cells.intern(rt, alloc, genome)
    }

    /// The next id goes to somebody of this genome. After `Memory` drop the scene.
    pub(crate) fn add_newcomer(
        &mut self,
        parent: Option<u64>,
        cell: u32,
        origin: Option<Origin>,
        genome: Arc<Genome, Global>,
    ) -> Result<(), Memory>
        ensures { OnOk result (self.new ≡ record self.old {
          everyone = self.old.everyone ++ record {
            id = next_id (scene_in self.old);
            parent = parent;
            update = self.old.update;
            cell = cell;
            origin = option_map record_of origin;
            genome = letters genome.value;
          } ∷ [];
        }) }
    {
        let came = Provenance {
            parent,
            origin,
            update: self.update,
            cell,
        };
        let id = self.next_id();
        self.everyone.push(Ancestor { id, came, genome })
    }

    /// Somebody with this id, whose genome has this number, stands in the cell, which was empty.
    /// After `Memory` drop the scene.
    #[tactic(auto, using(crate::proofs::BoundedCells::AreBounded_put))]
    pub(crate) fn put(
        &mut self,
        id: u64,
        cell: u32,
        number: u64,
        organism: BoxedOrganism,
    ) -> Result<(), Memory>
        requires cell { cell < length self.old.cells }
        requires empty { slice_index_or self.old.cells cell None ≡ None }
        requires organism { CanStand self.old.bank number organism }
        ensures { OnOk result (self.new ≡ record self.old {
          cells = slice_set self.old.cells cell (Some (record { id = id; organism = organism }));
        }) }
    {
        self.cells.put(cell, number, id, organism)
    }

    /// Somebody with this id, whose genome has this number, stands in the cell, and who stood there
    /// dies. After `Memory` drop the scene.
    pub(crate) fn put_over(
        &mut self,
        id: u64,
        cell: u32,
        number: u64,
        organism: BoxedOrganism,
    ) -> Result<(), Memory>
        requires cell { cell < length self.old.cells }
        requires organism { CanStand self.old.bank number organism }
        ensures { OnOk result (self.new ≡ with_occupant self.old cell
            (record { id = id; organism = organism })) }
    {
        self.kill(cell)?;
        self.put(id, cell, number, organism)
    }

    /// Who died of age is among the dead of this update; the cells have been left.
    pub(crate) fn add_departure(&mut self, id: u64) -> Result<(), Memory>
        ensures { OnOk result (self.new ≡ record self.old { gone = self.old.gone ++ id ∷ [] }) }
    {
        self.gone.push(id)?;
        Ok(())
    }

    /// Who came since the scene was last settled leaves: from now on they are known by the world
    /// after the scene's update. After `Memory` drop the scene.
    pub(crate) fn take_newcomers(
        &mut self,
        alloc: Global,
        config: &Arc<Config, Global>,
    ) -> Result<Vec<Ancestor>, Memory>
        requires world { self.old.everyone
            ≡ (world_after (values_of config.now.value) self.old.update).everyone }
        requires few { length self.old.everyone ≤ 2 ^ 62 + 2 ^ 60 }
        ensures scene { OnOk result
            (self.new ≡ record self.old { first = length self.old.everyone }) }
        ensures newcomers { IfOk result
            (λ newcomers. newcomers.items ≡ drop self.old.first self.old.everyone) }
    {
        self.everyone.take_newcomers(alloc, config, self.update)
    }

    /// The ids of those who died in the update leave.
    pub(crate) fn take_gone(&mut self, alloc: Global) -> Vec<u64>
        ensures scene { self.new ≡ record self.old { gone = [] } }
        ensures gone { result.items ≡ self.old.gone }
    {
        mem::replace(&mut self.gone, Vec::new(alloc))
    }

    /// Of all organisms ever in the world nothing but their number is known from now on.
    pub(crate) fn forget(&mut self)
        requires { length self.old.everyone ≤ 2 ^ 62 + 2 ^ 60 }
        ensures { self.new ≡ record self.old {
          first = length self.old.everyone;
          everyone = replicate (length self.old.everyone) forgotten;
        } }
    {
        self.everyone.forget();
    }

    /// What is counted at the end of the update, in which so many were born.
    pub(crate) fn stats(&self, births: u64) -> Stats
        ensures { result ≡ scene_stats (scene_in self.now) births }
    {
        self.cells
            .stats(self.update, births, self.gone.len() as u64)
    }
}
