// Worlds that several threads run.
ghost use Rattle.std.specs.Prelude.{◌≤◌};

use avida_port::Gate;
use std::alloc::Global;
use std::sync::Wait;
use std::sync::atomic::{AtomicU64, Ordering};
use std::test::Fail;
use std::thread::Threads;
use world_config::read;
use world_core::World;

/// A world whose founder bears twice in its first update.
const BUSY: &[u8] = b"width = 4\nheight = 4\naverage_slices = 1000\n";

/// Counts the shards that come, and holds each until so many have, for at most a hundred million
/// turns.
#[derive(Drop)]
struct Meeting {
    awaited: u64,
    came: AtomicU64,
    missed: AtomicU64,
}

impl Gate for Meeting {
    fn pass(&self, _update: u64, _shard: usize) {
        self.came.fetch_add(1, Ordering::SeqCst);
        for _ in 0..100_000_000 {
            if self.came.load(Ordering::SeqCst) >= self.awaited {
                return;
            }
        }
        self.missed.fetch_add(1, Ordering::SeqCst);
    }
}

/// The lines of the first update by so many threads. Each passes the gate, and no two of the first
/// that come could pass one after the other.
fn first_update<R: Threads + Wait + Sync>(
    rt: &R,
    alloc: Global,
    workers: u32,
) -> Result<Vec<u8>, Fail>
    requires { (1 ≤ workers) × (workers ≤ 64) }
{
    let gate = Meeting {
        awaited: u64::from(workers.min(2)),
        came: AtomicU64::new(0),
        missed: AtomicU64::new(0),
    };
    let config = read(alloc, BUSY).map_err(|_| "no configuration")?;
    let world = World::found(rt, alloc, config, workers)?;
    let (_world, text) = world.advance(rt, alloc, &gate)?;
    if gate.came.load(Ordering::SeqCst) != u64::from(workers) {
        return Err("a shard doesn't pass, or passes twice".into());
    }
    if gate.missed.load(Ordering::SeqCst) != 0 {
        return Err("a shard waits in vain".into());
    }
    Ok(text)
}

#[test]
fn shards_run_side_by_side_and_write_one_log(rt: HostRuntime) -> Result<(), Fail> {
    let alloc = rt.alloc();
    let one = first_update(&rt, alloc, 1)?;
    assert_eq!(rt; one.iter().filter(|byte| **byte == b'\n').count(), 3);
    assert_eq!(rt; first_update(&rt, alloc, 2)?, one);
    assert_eq!(rt; first_update(&rt, alloc, 17)?, one);
    Ok(())
}
