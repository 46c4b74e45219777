// A list of events.
ghost use Rattle.std.specs.Prelude.{◌≡◌, IfOk};
ghost use Rattle.world_config.specs.Events.{event_values};

use crate::event::Event;
use avida_port::{Items, Memory};
use std::alloc::Global;

/// The events of a configuration, in the order in which they happen.
pub type Events = Items<Event>;

/// An equal list.
pub(crate) fn copy_of(alloc: Global, events: &[Event]) -> Result<Events, Memory>
    ensures { IfOk result (λ copy. event_values copy ≡ event_values events.now) }
{
    let mut copies = Vec::with_capacity(alloc, events.len())?;
    for event in events {
        copies.push_reserved(event.copy(alloc)?);
    }
    Ok(Events::from_vec(copies))
}
