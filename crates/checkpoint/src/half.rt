// An organism of which the first of its two lines was read.
ghost use Rattle.std.specs.Prelude.{IsTrue};
ghost use Rattle.checkpoint.specs.Prelude.{IsOrganismLine, values_of_organism, may_stand};

use crate::so_far::SoFar;
use saved_lines::OrganismLine;

/// What was told so far, and the line of an organism that may come next.
#[derive(Drop)]
pub(crate) struct Half {
    pub(crate) so_far: SoFar,
    pub(crate) organism: OrganismLine,
    ghost stands: { IsTrue (may_stand so_far.head so_far.placed (values_of_organism organism)) },
    ghost form: { IsOrganismLine (values_of_organism organism) },
}
