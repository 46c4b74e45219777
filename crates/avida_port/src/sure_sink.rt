// A sink in memory that never fails.
ghost use Rattle.std.specs.Prelude.{◌≡◌, [], IsOk, IsErrOf};
ghost use Rattle.avida_port.specs.Ports.{one_more, Puts};

use crate::{Sink, SinkStop};
use std::alloc::Global;
use std::marker::Model;

/// A sink in memory that fails only when memory runs out.
#[derive(Drop)]
pub struct SureSink {
    bytes: Vec<u8>,
    wants: u64,
}

impl Model for SureSink {
    ghost use Rattle.avida_port.specs.Memory.{SureSinkState};

    ghost Value = { SureSinkState };

    ghost view = { λ s. record { held = s.bytes.items; wants = s.wants } };
}

impl SureSink {
    ghost use Rattle.avida_port.specs.Memory.{SureSinkState};

    /// An empty sink.
    pub fn new(alloc: Global) -> SureSink
        ensures { result ≡ record { held = []; wants = 0 } }
    {
        SureSink {
            bytes: Vec::new(alloc),
            wants: 0,
        }
    }

    /// What the sink holds.
    pub fn bytes(&self) -> &[u8]
        ensures { result.now ≡ self.now.held }
    {
        &self.bytes
    }
}

impl Sink for SureSink {
    ghost use Rattle.avida_port.specs.Memory.{sure_sink_seen};

    ghost seen = { sure_sink_seen };

    fn put(&mut self, piece: &[u8]) -> Result<(), SinkStop>
        ensures puts { Puts (sure_sink_seen self.old) (sure_sink_seen self.new) piece.now result }
        ensures empty { piece.now ≡ [] → IsOk result × (self.new ≡ self.old) }
        ensures no_fault { ¬ IsErrOf result SinkStop.Fault }
        ensures wants { IsErrOf result SinkStop.Memory → self.new.wants ≡ one_more self.old.wants }
        ensures no_want { ¬ IsErrOf result SinkStop.Memory → self.new.wants ≡ self.old.wants }
    {
        if piece.is_empty() {
            return Ok(());
        }
        if self.bytes.extend_from_slice(piece).is_err() {
            self.wants = self.wants.saturating_add(1);
            return Err(SinkStop::Memory);
        }
        Ok(())
    }
}
