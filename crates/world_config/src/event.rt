// An event.
ghost use Rattle.std.specs.Prelude.{◌≡◌, IfOk};

use avida_port::Memory;
use genome::Genome;
use mutations::RateName;
use std::alloc::Global;

/// What happens at the end of an update.
#[derive(Drop)]
pub struct Event {
    pub update: u32,
    pub what: What,
}

/// What an event does.
#[derive(Drop)]
pub enum What {
    /// A new organism is put into the cell; an organism that stands there dies.
    Inject { cell: u32, genome: Genome },
    /// All organisms in these cells die.
    Clear { first: u32, last: u32 },
    /// The rate holds from the next update on.
    Rate { name: RateName, ppm: u32 },
}

impl Event {
    ghost use Rattle.world_config.specs.Events.{event_value};

    /// An equal event.
    pub(crate) fn copy(&self, alloc: Global) -> Result<Event, Memory>
        ensures { IfOk result (λ event. event_value event ≡ event_value self.now) }
    {
        Ok(Event {
            update: self.update,
            what: self.what.copy(alloc)?,
        })
    }
}

impl What {
    ghost use Rattle.world_config.specs.Events.{what_value};

    fn copy(&self, alloc: Global) -> Result<What, Memory>
        ensures { IfOk result (λ what. what_value what ≡ what_value self.now) }
    {
        match *self {
            What::Inject { cell, ref genome } => Ok(What::Inject {
                cell,
                genome: genome.copy(alloc)?,
            }),
            What::Clear { first, last } => Ok(What::Clear { first, last }),
            What::Rate { name, ppm } => Ok(What::Rate { name, ppm }),
        }
    }
}
