// The limits that the code and the definitions share.
ghost use Rattle.std.specs.Prelude.{◌≡◌};
ghost use Rattle.avida_port.specs.Ports.{longest_input};

use crate::LONGEST_INPUT;

/// The limit of the code is the written one.
pub fn limits()
    ensures input { LONGEST_INPUT ≡ longest_input }
{}
