// Who stands in each cell, and what is counted of them.
ghost use Rattle.std.specs.Prelude.{◌≡◌, ◌+◌, [], ◌<◌, ◌≤◌, ◌^◌, None, Some, IfOk, OnErr, OnOk, length, map, option_map, replicate, slice_get, slice_index_or, slice_set, sum, ℕ};
ghost use Rattle.world_core.specs.Prelude.{dominant_value, letters, with_genome, values_of, lives_of, dominant_of, organism_in, stats_in, births_of, LiveOn};
ghost use Rattle.world_core.specs.Bounds.{AreBounded, AreBoundedLives};
ghost use Rattle.world_core.specs.Scenes.{TakesIn};
ghost use Rattle.world_core.specs.Endings.{deliveries_in, departed_from, departures_in, staying_in};
ghost use Rattle.world_core.specs.Population.{occupant_genome};
ghost use Rattle.world_rules.specs.Lives.{slices_at};

use crate::cell_table::CellTable;
use crate::genotypes::Genotypes;
use crate::lived::{Lived, copy_of};
use crate::lives::{count_change, round_at, slices_by};
use crate::pairs::both;
use crate::sharding::{Ended, live_in_shards};
use avida_port::{Gate, Memory};
use cell_shards::BoxedOrganism;
use census::laws::dominance_knows_no_order;
use census::{Census, Dominant};
use genome::Genome;
use genotype_bank::Handle;
use genotype_bank::laws::genotypes_are_what_was_interned;
use instruction_set::laws::one_index;
use log_lines::Stats;
use random_streams::CELLS;
use std::alloc::{AllocError, Global};
use std::marker::Model;
use std::sync::Wait;
use std::thread::Threads;
use world_config::{Config, GREATEST_UPDATES};

/// Who stands in each cell. The counts of the living change as organisms come and go.
#[derive(Drop)]
pub(crate) struct Population {
    pub(crate) cells: CellTable,
    /// The number of the genome in each cell where somebody stands.
    pub(crate) keys: Vec<u64>,
    pub(crate) genotypes: Genotypes,
    pub(crate) census: Census,
}

impl Model for Population {
    ghost use Rattle.world_core.specs.Population.{PopulationValue};

    ghost Value = { PopulationValue };

    ghost use Rattle.world_core.specs.Population.{IsKeptOf};

    ghost view = { λ p. record { cells = p.cells; bank = p.genotypes } };

    ghost invariant = { λ p. IsKeptOf p.cells p.genotypes p.keys.items p.census };
}

impl Population {
    /// So many cells in which nobody stands, and an empty bank.
    pub(crate) fn none(alloc: Global, cells: u32) -> Result<Population, Memory>
        requires { cells ≤ CELLS }
        ensures { IfOk result (λ population.
            population ≡ record { cells = replicate cells None; bank = [] }) }
    {
        Ok(Population {
            cells: CellTable::none(alloc, cells)?,
            keys: vec![in alloc; 0; cells as usize]?,
            genotypes: Genotypes::none(alloc)?,
            census: Census::start(alloc),
        })
    }

    /// Who stands in each cell.
    pub(crate) fn cells(&self) -> &CellTable
        ensures cells { result.now ≡ self.now.cells }
        ensures few { length self.now.cells ≤ CELLS }
    {
        &self.cells
    }

    /// How many genotypes have a number.
    pub(crate) fn bank_len(&self) -> u64
        ensures { result ≡ length self.now.bank }
    {
        self.genotypes.len()
    }

    /// The number of the genome in the cell; None exactly where nobody stands there.
    pub(crate) fn number_at(&self, cell: u32) -> Option<u64>
        requires { cell < length self.now.cells }
        ensures { option_map (λ number. slice_get self.now.bank number) result
            ≡ option_map (λ genome. Some genome)
            (occupant_genome (slice_index_or self.now.cells cell None)) }
    {
        match self.cells.standing_at(cell as usize) {
            Some(_) => Some(self.keys[cell as usize]),
            None => None,
        }
    }

    /// Interns a genome.
    pub(crate) fn intern<R: Wait>(
        &mut self,
        rt: &R,
        alloc: Global,
        genome: Genome,
    ) -> Result<Handle, Memory>
        ensures ok { OnOk result (self.new
            ≡ record self.old { bank = with_genome self.old.bank (letters genome) }) }
        ensures err { OnErr result (self.new ≡ self.old) }
        ensures genome { IfOk result (λ handle. letters handle.genome.value ≡ letters genome) }
        ensures number { IfOk result (λ handle.
            slice_get self.new.bank handle.number ≡ Some (letters genome)) }
    {
        one_index();
        self.genotypes.intern(rt, alloc, genome)
    }

    /// Nobody stands in the cell any longer; the result is who did.
    pub(crate) fn take(&mut self, cell: u32) -> Option<BoxedOrganism>
        requires { cell < length self.old.cells }
        ensures after { self.new ≡ record self.old { cells = slice_set self.old.cells cell None } }
        ensures who { result ≡ organism_in (slice_index_or self.old.cells cell None) }
    {
        one_index();
        let at = cell as usize;
        if let Some(was) = self.cells.standing_at(at) {
            let key = self.keys[at];
            self.census.remove(key, was.merit, was.credited);
        }
        self.cells.take(at)
    }

    /// Somebody, whose genome has this number, stands in a cell that was empty. If memory runs out,
    /// nobody does.
    pub(crate) fn put(
        &mut self,
        cell: u32,
        number: u64,
        id: u64,
        organism: BoxedOrganism,
    ) -> Result<(), Memory>
        requires cell { cell < length self.old.cells }
        requires empty { slice_index_or self.old.cells cell None ≡ None }
        requires number { slice_get self.old.bank number ≡ Some organism.genome }
        requires merit { organism.merit ≤ 2 ^ 38 }
        ensures ok { OnOk result (self.new ≡ record self.old {
          cells = slice_set self.old.cells cell (Some (record { id = id; organism = organism }));
        }) }
        ensures err { OnErr result (self.new ≡ self.old) }
    {
        one_index();
        let standing = organism.standing();
        self.census.add(number, organism.genome(), standing.merit, standing.credited)?;
        self.keys[cell as usize] = number;
        self.cells.put(cell as usize, id, organism);
        Ok(())
    }

    /// The steps of each cell in the next update.
    fn slices(&self, alloc: Global, config: &Config) -> Result<Vec<u64>, AllocError>
        ensures slices { IfOk result
            (λ slices. slices.items ≡ slices_at (values_of config.now) self.now.cells) }
        ensures few { IfOk result
            (λ slices. (cell : ℕ) → slice_index_or slices.items cell 0 < 2 ^ 27) }
        ensures total { IfOk result (λ slices. sum slices.items ≤ 65536000) }
        ensures length { IfOk result (λ slices. length slices.items ≡ length self.now.cells) }
    {
        slices_by(alloc, config, &self.cells.standings)
    }

    /// The lives of all cells in the update after this one, by as many threads as there are
    /// workers. The dead leave their cells, and the genomes of the newborns are interned. The
    /// calling thread does `meanwhile` once the others have begun. After `Memory` no population is
    /// left.
    pub(crate) fn live<R: Threads + Wait + Sync, G: Gate + Sync, T: Drop, F: FnOnce() -> T + Drop>(
        self,
        rt: &R,
        alloc: Global,
        config: &Config,
        update: u32,
        workers: u32,
        gate: &G,
        meanwhile: F,
    ) -> Result<(Population, Lived, T), Memory>
        requires some { 1 ≤ length self.cells }
        requires update { update < GREATEST_UPDATES }
        requires workers { (1 ≤ workers) × (workers ≤ 64) }
        requires bounded { AreBounded update self.cells }
        requires lives { LiveOn (values_of config.now)
            (record { update = update; cells = self.cells; everyone = [] }) }
        requires meanwhile { F.pre meanwhile }
        ensures cells { IfOk result (λ next. next.0.cells
            ≡ map staying_in (lives_of (values_of config.now) (update + 1) self.cells)) }
        ensures births { IfOk result (λ next. deliveries_in next.1
            ≡ births_of (lives_of (values_of config.now) (update + 1) self.cells)) }
        ensures dead { IfOk result (λ next. departures_in next.1
            ≡ departed_from 0 (lives_of (values_of config.now) (update + 1) self.cells)) }
        ensures bank { IfOk result (λ next. TakesIn self.bank next.0.bank next.1.born.items) }
        ensures bounds { IfOk result (λ next. AreBoundedLives (values_of config.now) (update + 1)
            next.0.cells (deliveries_in next.1)) }
        ensures meanwhile { IfOk result (λ next. F.post meanwhile next.2) }
    {
        one_index();
        let slices = self.slices(alloc, config)?;
        let Population {
            cells,
            keys,
            genotypes: known,
            mut census,
        } = self;
        let CellTable {
            organisms,
            ids,
            standings: before,
        } = cells;
        let ids_before = copy_of(alloc, &ids);
        let round = round_at(config, update + 1);
        let ended = live_in_shards(
            rt, alloc, known, organisms, slices, &round, workers, gate, meanwhile,
        );
        let ((genotypes, ended, outcome), ids_before) = both(ended, ids_before)?;
        let Ended {
            organisms: left,
            standings,
            births,
            dead,
        } = ended;
        for cell in 0..left.len() {
            count_change(&mut census, keys[cell], before[cell], standings[cell]);
        }
        let population = Population {
            cells: CellTable {
                organisms: left,
                ids,
                standings,
            },
            keys,
            genotypes,
            census,
        };
        let lived = Lived {
            born: births,
            died: dead,
            ids: ids_before,
        };
        Ok((population, lived, outcome))
    }

    /// What is counted after an update of so many births and deaths.
    #[tactic(auto, unfolding(world_rules::specs::Statistics::stats_in))]
    pub(crate) fn stats(&self, update: u32, births: u64, deaths: u64) -> Stats
        ensures { result ≡ stats_in update self.now.cells births deaths }
    {
        one_index();
        genotypes_are_what_was_interned();
        Stats {
            update,
            living: self.census.living(),
            births,
            deaths,
            genotypes: self.census.genotypes(),
            merit: self.census.merit(),
            tasks: self.census.tasks(),
        }
    }

    /// The genome that most of the living have, with their number.
    pub(crate) fn dominant(&self) -> Result<Option<Dominant>, Memory>
        ensures { IfOk result
            (λ found. option_map dominant_value found ≡ dominant_of self.now.cells) }
    {
        one_index();
        dominance_knows_no_order();
        self.census.dominant()
    }
}
