// A saved world that goes on.
ghost use Rattle.std.specs.Prelude.{◌≡◌, ◌*◌, ◌<◌, ◌≤◌, IfOk, None, length, map, slice_index_or};
ghost use Rattle.world_core.specs.Prelude.{head_values, next_state, next_text, state_of_lines, AreSaved, placed_in, ids_of};
ghost use Rattle.lineage_log.specs.Reader.{taken};
ghost use Rattle.world_core.specs.Scenes.{IsResidentIn};

use crate::resuming::{head_at, restored_scene, shared_config};
use crate::scene::Scene;
use crate::updating::next_scene;
use avida_port::{Gate, Items, Memory};
use saved_lines::{Resident, StateHead};
use saved_worlds::laws::{lines_can_go_on, states_go_on, states_stay_valid};
use std::alloc::Global;
use std::marker::Model;
use std::sync::{Arc, Wait};
use std::thread::Threads;
use world_config::Config;
use world_laws::laws::sound_organisms_live_on;

/// The organisms of a saved world, in the order of their cells.
pub type Residents = Items<Resident>;

/// A saved world, which goes on by the rules of an update, without events. Its type keeps that it
/// is valid, so what `advance` leaves can be written and read again. Only `World::into_state`,
/// `build` and `advance` make one.
#[derive(Drop)]
pub struct State {
    /// Its events are over, and its ancestor means nothing.
    pub(crate) config: Arc<Config, Global>,
    pub(crate) scene: Scene,
    pub(crate) workers: u32,
}

impl Model for State {
    ghost use Rattle.saved_worlds.specs.SavedState.{SavedState};

    ghost Value = { SavedState };

    ghost use Rattle.std.specs.Prelude.{◌≤◌};
    ghost use Rattle.world_config.specs.Values.{values_of};
    ghost use Rattle.world_core.specs.Scenes.{IsState, state_in};

    ghost view = { λ s. state_in (values_of s.config.value) s.scene };

    ghost invariant = { λ s. IsState (values_of s.config.value) s.scene
        × (1 ≤ s.workers) × (s.workers ≤ 64) };
}

impl State {
    /// The saved world of a head and of the organisms in it. It may wait, since it interns their
    /// genomes.
    pub fn build<R: Wait>(
        rt: &R,
        alloc: Global,
        head: StateHead,
        residents: Residents,
        workers: u32,
    ) -> Result<State, Memory>
        requires workers { (1 ≤ workers) × (workers ≤ 64) }
        requires valid { AreSaved (head_values head)
            (map (placed_in (head_values head)) residents) }
        ensures { IfOk result (λ state. state ≡ state_of_lines (head_values head)
            (map (placed_in (head_values head)) residents)) }
    {
        lines_can_go_on();
        let config = shared_config(alloc, &head)?;
        let scene = restored_scene(rt, alloc, &head, residents.into_vec())?;
        Ok(State {
            config,
            scene,
            workers,
        })
    }

    /// One update without events, and its lines, by as many threads as there are workers. After
    /// `Memory` no state is left. It may wait, since it interns the genomes of the newborns.
    pub fn advance<R: Threads + Wait + Sync, G: Gate + Sync>(
        self,
        rt: &R,
        alloc: Global,
        gate: &G,
    ) -> Result<(State, Vec<u8>), Memory>
        requires { self.head.update < 1000000 }
        ensures state { IfOk result (λ next. next.0 ≡ next_state self) }
        ensures text { IfOk result (λ next. next.1.items ≡ next_text self) }
    {
        let State {
            config,
            scene,
            workers,
        } = self;
        sound_organisms_live_on(&config);
        states_go_on(&config);
        states_stay_valid();
        let (mut scene, _, text, ()) = next_scene(rt, alloc, &config, scene, workers, gate, || ())?;
        scene.forget();
        let state = State {
            config,
            scene,
            workers,
        };
        Ok((state, text))
    }

    /// Its values besides its organisms.
    pub fn head(&self) -> StateHead
        ensures { head_values result ≡ self.now.head }
    {
        head_at(&self.config, self.scene.update, self.scene.next_id())
    }

    /// The organism in the cell; `Ok(None)` exactly if it is empty.
    pub fn resident(&self, alloc: Global, cell: u32) -> Result<Option<Resident>, Memory>
        requires { cell < self.now.head.width * self.now.head.height }
        ensures { IfOk result
            (IsResidentIn cell (slice_index_or self.now.cells cell None)) }
    {
        self.scene.cells.cells().resident_at(alloc, cell)
    }

    /// How many organisms stand in the cells.
    #[tactic(auto, unfolding(world_rules::specs::Statistics::stats_in))]
    pub fn living(&self) -> u64
        ensures { result ≡ taken (ids_of self.now.cells) }
    {
        self.scene.stats(0).living
    }

    /// The number of the last update.
    pub fn update(&self) -> u32
        ensures { result ≡ self.now.head.update }
    {
        self.scene.update
    }

    /// The number of cells.
    pub fn cells(&self) -> u32
        ensures count { result ≡ self.now.head.width * self.now.head.height }
        ensures cells { result ≡ length self.now.cells }
    {
        self.config.width * self.config.height
    }
}
