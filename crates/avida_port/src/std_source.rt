// Standard input, part of the trusted edge.
ghost use Rattle.std.specs.Prelude.{◌≡◌};

use crate::retrying::{Failed, read_once};
use crate::{Source, SourceFail};
use std::io::Stdin;
use std::marker::Model;

/// Standard input. Contracts can't see its bytes.
#[derive(Drop)]
pub struct StdSource {
    from: Stdin,
    faults: u64,
}

// What contracts see is the number of faults.
impl Model for StdSource {
    ghost use Rattle.std.specs.Prelude.{ℕ};

    ghost Value = { ℕ };

    ghost view = { λ s. s.faults };
}

impl StdSource {
    /// Standard input, of which no read has failed.
    pub fn new(rt: &HostRuntime) -> StdSource
        ensures { result ≡ 0 }
    {
        StdSource {
            from: rt.stdin(),
            faults: 0,
        }
    }
}

impl Source for StdSource {
    ghost use Rattle.avida_port.specs.Ports.{std_source_seen};

    ghost seen = { std_source_seen };

    fn fill(&mut self, room: &mut [u8]) -> Result<usize, SourceFail> {
        match read_once(&mut self.from, room) {
            Ok(n) => Ok(n),
            Err(Failed) => {
                self.faults = self.faults.saturating_add(1);
                Err(SourceFail)
            }
        }
    }
}
