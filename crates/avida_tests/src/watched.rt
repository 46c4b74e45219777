// Shards and a watcher that are at work at the same time: each shard of an update waits until the
// other one has come, and until the picture of the update before was told.
ghost use Rattle.std.specs.Prelude.{◌≡◌, [], IsOk};
ghost use Rattle.avida_port.specs.Memory.{sure_sink_seen};
ghost use Rattle.avida_port.specs.Ports.{Puts};

use crate::served::serve_on;
use avida_port::{Gate, Sink, SinkStop, SureSink};
use avida_program::Status;
use std::hint::spin_loop;
use std::sync::atomic::{AtomicBool, AtomicU64, Ordering};
use std::test::Fail;

/// Two updates of a world that two workers share.
const CONFIG: &str = "width = 60
height = 60
updates = 2
";

/// For how many turns a shard waits.
const TURNS: u32 = 100_000_000;

/// A watch that counts its puts where the gate sees it.
#[derive(Drop)]
struct CountedSink<'a> {
    sink: SureSink,
    puts: &'a AtomicU64,
}

impl Sink for CountedSink<'_> {
    ghost use Rattle.avida_port.specs.Memory.{sure_sink_seen};

    ghost seen = { λ s. sure_sink_seen s.sink };

    fn put(&mut self, piece: &[u8]) -> Result<(), SinkStop>
        ensures puts { Puts (sure_sink_seen self.old.sink) (sure_sink_seen self.new.sink) piece.now
            result }
        ensures empty { piece.now ≡ []
            → IsOk result × (sure_sink_seen self.new.sink ≡ sure_sink_seen self.old.sink) }
    {
        let result = self.sink.put(piece);
        self.puts.fetch_add(1, Ordering::SeqCst);
        result
    }
}

/// A gate that holds each shard until both shards of its update have come, and until the watch was
/// put the line of every update before it.
#[derive(Drop)]
struct Holding<'a> {
    puts: &'a AtomicU64,
    passes: AtomicU64,
    in_vain: AtomicBool,
}

impl Gate for Holding<'_> {
    fn pass(&self, update: u64, _shard: usize) {
        self.passes.fetch_add(1, Ordering::SeqCst);
        for _ in 0..TURNS {
            let met = self.passes.load(Ordering::SeqCst) / 2 >= update;
            if met && self.puts.load(Ordering::SeqCst) >= update {
                return;
            }
            spin_loop();
        }
        self.in_vain.store(true, Ordering::SeqCst);
    }
}

#[test]
fn shards_and_a_watcher_are_at_work_at_the_same_time(rt: HostRuntime) -> Result<(), Fail> {
    let alloc = rt.alloc();
    let puts = AtomicU64::new(0);
    let mut watch = CountedSink {
        sink: SureSink::new(alloc),
        puts: &puts,
    };
    let holding = Holding {
        puts: &puts,
        passes: AtomicU64::new(0),
        in_vain: AtomicBool::new(false),
    };
    let (status, _) = serve_on(
        &rt,
        alloc,
        "run --watch 1000000 --workers 2",
        CONFIG.as_bytes(),
        &mut watch,
        &holding,
    )?;
    assert_eq!(rt; status, Status::Done);
    assert_eq!(rt;
        holding.passes.load(Ordering::SeqCst),
        4,
        "a shard never came"
    );
    assert!(rt;
        !holding.in_vain.load(Ordering::SeqCst),
        "a shard waited in vain"
    );
    Ok(())
}
