// Standard output and standard error, part of the trusted edge.
ghost use Rattle.std.specs.Prelude.{◌≡◌, [], IsOk, OnOk, OnErr, IsErrOf};
ghost use Rattle.std.specs.Io.KnownBytes.{Appends};
ghost use Rattle.avida_port.specs.Ports.{Puts, AppendsFront};

use crate::retrying::{Failed, write_once};
use crate::{Sink, SinkStop};
use std::io::{Stderr, Stdout, Write};
use std::marker::Model;

#[derive(Clone, Copy)]
enum Stream {
    Output(Stdout),
    Errors(Stderr),
}

/// Standard output or standard error. Contracts can't see its bytes.
#[derive(Drop)]
pub struct StdSink {
    to: Stream,
    faults: u64,
}

// What contracts see is the number of faults.
impl Model for StdSink {
    ghost use Rattle.std.specs.Prelude.{ℕ};

    ghost Value = { ℕ };

    ghost view = { λ s. s.faults };
}

impl StdSink {
    /// Standard output.
    pub fn out(rt: &HostRuntime) -> StdSink
        ensures { result ≡ 0 }
    {
        StdSink {
            to: Stream::Output(rt.stdout()),
            faults: 0,
        }
    }

    /// Standard error.
    pub fn err(rt: &HostRuntime) -> StdSink
        ensures { result ≡ 0 }
    {
        StdSink {
            to: Stream::Errors(rt.stderr()),
            faults: 0,
        }
    }
}

// Writes the whole piece, or a prefix of it where the stream failed or took nothing.
fn write_whole<W: Write>(to: &mut W, piece: &[u8]) -> Result<(), Failed>
    ensures ok { OnOk result (Appends (W.contents to.old) (W.contents to.new) piece.now) }
    ensures err { OnErr result (AppendsFront (W.contents to.old) (W.contents to.new) piece.now) }
    ensures empty { piece.now ≡ [] → IsOk result }
{
    let mut rest = piece;
    while !rest.is_empty() {
        match write_once(to, rest) {
            Ok(0) | Err(Failed) => return Err(Failed),
            Ok(n) => rest = &rest[n..],
        }
    }
    Ok(())
}

impl Sink for StdSink {
    ghost use Rattle.avida_port.specs.Ports.{std_sink_seen};

    ghost seen = { std_sink_seen };

    fn put(&mut self, piece: &[u8]) -> Result<(), SinkStop>
        ensures puts { Puts (std_sink_seen self.old) (std_sink_seen self.new) piece.now result }
        ensures empty { piece.now ≡ [] → IsOk result × (self.new ≡ self.old) }
        ensures no_want { ¬ IsErrOf result SinkStop.Memory }
    {
        let result = match &mut self.to {
            Stream::Output(to) => write_whole(to, piece),
            Stream::Errors(to) => write_whole(to, piece),
        };
        match result {
            Ok(()) => Ok(()),
            Err(Failed) => {
                self.faults = self.faults.saturating_add(1);
                Err(SinkStop::Fault)
            }
        }
    }
}
