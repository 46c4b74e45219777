// The genome of a child.
ghost use Rattle.std.specs.Prelude.{◌≡◌, [], None, Some, IsTrue};
ghost use Rattle.lineage_log.specs.Prelude.{letters, record_of};
ghost use Rattle.lineage_log.specs.Readings.{MakesChild};

use crate::reason::Reason;
use crate::refusal::Refusal;
use genome::Genome;
use instruction_set::Letter;
use mutations::{ApplyStop, Base, Origin, apply_in};

/// Whether a record changes nothing.
pub fn is_unchanged(origin: &Origin) -> bool
    ensures { IsTrue result → record_of origin.now ≡ record { written = None; changes = [] } }
{
    match origin.base {
        Base::Parent => origin.changes.len() == 0,
        Base::Written(_) => false,
    }
}

/// The genome that a record makes of the parent's. Its letters are put into `room`, in place of
/// what that holds.
pub fn child_in(room: Vec<Letter>, parent: &Genome, origin: &Origin) -> Result<Genome, Refusal>
    ensures { MakesChild letters result (Some (letters parent.now)) (record_of origin.now) }
{
    match apply_in(room, parent, origin) {
        Ok(child) => Ok(child),
        Err(ApplyStop::Memory) => Err(Refusal::Memory),
        Err(_) => Err(Refusal::Faulty(Reason::BadChange)),
    }
}
