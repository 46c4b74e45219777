// Looks ahead, which bring what the next lives begin with from memory.
ghost use Rattle.std.specs.Prelude.{◌≤◌, length};

use crate::body::Body;
use crate::boxed_organism::BoxedOrganism;

/// How many cells a look takes in, since memory answers so many questions side by side.
pub(crate) const AHEAD: usize = 8;

/// Looks at the letters that the lives from this place on read first, and at the bodies of those
/// behind them. Each life would wait for its own; a look waits once for all. What it sees is mixed
/// into a number of no meaning. It stays out of the loop over cells, which has its registers for the
/// lives.
#[inline(never)]
pub(crate) fn look_ahead(cells: &[Option<BoxedOrganism>], place: usize) -> u64
    requires { place ≤ length cells.now }
{
    let near = cells.len().min(place + AHEAD);
    let far = cells.len().min(near + AHEAD);
    letters_in(&cells[place..near]) ^ bodies_in(&cells[near..far])
}

fn letters_in(cells: &[Option<BoxedOrganism>]) -> u64 {
    let mut seen = 0;
    for slot in cells {
        if let Some(organism) = slot {
            seen ^= letters_of(&organism.inner);
        }
    }
    seen
}

/// The letters that its steps read first.
#[inline(always)]
fn letters_of(body: &Body) -> u64 {
    let [next, read, written] = body.organism.machine().letters_under_heads();
    u64::from(next.index()) ^ u64::from(read.index()) ^ u64::from(written.index())
}

fn bodies_in(cells: &[Option<BoxedOrganism>]) -> u64 {
    let mut seen = 0;
    for slot in cells {
        if let Some(organism) = slot {
            seen ^= body_of(&organism.inner);
        }
    }
    seen
}

/// Some fields of a body that lie far apart in memory.
#[inline(always)]
fn body_of(body: &Body) -> u64 {
    let organism = &body.organism;
    let length = u64::from(organism.machine().birth_length());
    u64::from(body.pending.is_some()) ^ organism.age() ^ length ^ organism.read()
}
