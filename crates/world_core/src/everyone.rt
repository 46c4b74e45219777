// All organisms ever in a world, of which only the latest are in memory.
ghost use Rattle.std.specs.Prelude.{◌≡◌, ◌+◌, ◌++◌, ◌∷◌, [], ◌≤◌, ◌^◌, IfOk, OnOk, drop, length, replicate};
ghost use Rattle.world_core.specs.Prelude.{forgotten, values_of, world_after};

use avida_port::Memory;
use lineage_log::Ancestor;
use std::alloc::Global;
use std::marker::Model;
use std::mem;
use std::sync::Arc;
use world_config::Config;

/// Who was there before, and is no longer in memory.
#[derive(Drop)]
pub(crate) enum Past {
    Nobody,
    /// All organisms ever in the world of a configuration after so many updates.
    Run {
        config: Arc<Config, Global>,
        update: u32,
    },
    /// So many organisms, of which a saved world tells nothing else.
    Forgotten {
        count: u64,
    },
}

/// All organisms ever in a world, by id. Those of the past are counted, and no longer in memory.
#[derive(Drop)]
pub(crate) struct Everyone {
    past: Past,
    earlier: u64,
    latest: Vec<Ancestor>,
}

impl Model for Everyone {
    ghost use Rattle.std.specs.Prelude.{◌≡◌, ◌+◌, ◌++◌, ◌≤◌, ◌^◌, length};
    ghost use Rattle.world_core.specs.LateTrees.{EveryoneValue, past_links};

    ghost Value = { EveryoneValue };

    ghost view = { λ e. record {
      first = e.earlier;
      links = past_links e.past ++ e.latest.items;
    } };

    ghost invariant = { λ e. (length (past_links e.past) ≡ e.earlier)
        × (e.earlier ≤ 2 ^ 62 + 2 ^ 60) };
}

impl Everyone {
    /// Nobody was ever there.
    pub(crate) fn none(alloc: Global) -> Everyone
        ensures { result ≡ record { first = 0; links = [] } }
    {
        Everyone {
            past: Past::Nobody,
            earlier: 0,
            latest: Vec::new(alloc),
        }
    }

    /// So many were there, of whom nothing else is known.
    pub(crate) fn forgotten(alloc: Global, count: u64) -> Everyone
        requires { count ≤ 2 ^ 62 + 2 ^ 60 }
        ensures { result ≡ record { first = count; links = replicate count forgotten } }
    {
        Everyone {
            past: Past::Forgotten { count },
            earlier: count,
            latest: Vec::new(alloc),
        }
    }

    /// How many there were.
    pub(crate) fn len(&self) -> u64
        ensures { result ≡ length self.now.links }
    {
        self.earlier + self.latest.len() as u64
    }

    /// One more.
    pub(crate) fn push(&mut self, newcomer: Ancestor) -> Result<(), Memory>
        ensures { OnOk result
            (self.new ≡ record self.old { links = self.old.links ++ newcomer ∷ [] }) }
    {
        self.latest.push(newcomer)?;
        Ok(())
    }

    /// All are the past of what comes, and those that came since the last one was settled leave.
    /// After `Memory` drop it.
    pub(crate) fn take_newcomers(
        &mut self,
        alloc: Global,
        config: &Arc<Config, Global>,
        update: u32,
    ) -> Result<Vec<Ancestor>, Memory>
        requires world { self.old.links
            ≡ (world_after (values_of config.now.value) update).everyone }
        requires few { length self.old.links ≤ 2 ^ 62 + 2 ^ 60 }
        ensures all { OnOk result
            (self.new ≡ record self.old { first = length self.old.links }) }
        ensures latest { IfOk result
            (λ latest. latest.items ≡ drop self.old.first self.old.links) }
    {
        let count = self.len();
        let config = Arc::try_clone(config)?;
        self.past = Past::Run { config, update };
        self.earlier = count;
        Ok(mem::replace(&mut self.latest, Vec::new(alloc)))
    }

    /// Of all that were there nothing but their number is known from now on.
    pub(crate) fn forget(&mut self)
        requires { length self.old.links ≤ 2 ^ 62 + 2 ^ 60 }
        ensures { self.new ≡ record {
          first = length self.old.links;
          links = replicate (length self.old.links) forgotten;
        } }
    {
        let count = self.len();
        self.past = Past::Forgotten { count };
        self.earlier = count;
        self.latest.clear();
    }
}
