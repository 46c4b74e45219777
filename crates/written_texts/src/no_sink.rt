// A sink that keeps nothing.
use avida_port::{Sink, SinkStop};

/// A sink that keeps nothing, and never fails.
#[derive(Clone, Copy, Debug)]
pub struct NoSink;

impl Sink for NoSink {
    ghost use Rattle.std.specs.Prelude.{None};

    ghost seen = { λ _. record { held = None; faults = 0; wants = 0 } };

    fn put(&mut self, _piece: &[u8]) -> Result<(), SinkStop> {
        Ok(())
    }
}
