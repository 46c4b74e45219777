// A call of `serve` over a source and sinks in memory.
use avida_port::{Gate, MemSource, Sink, SureSink};
use avida_program::{Status, serve};
use std::alloc::{AllocError, Global};
use std::sync::Wait;
use std::thread::Threads;
use std::time::Clock;
use world_core::World;

/// Serves the words, which spaces part, on these bytes, with this watch and this gate. It gives the
/// status, and the world that is left.
pub fn serve_on<R: Threads + Wait + Clock + Sync, W: Sink + Send, G: Gate + Sync>(
    rt: &R,
    alloc: Global,
    words: &str,
    bytes: &[u8],
    watch: &mut W,
    gate: &G,
) -> Result<(Status, Option<World>), AllocError> {
    let mut texts = Vec::new(alloc);
    for word in words.split(' ') {
        texts.push(String::from_str(alloc, word)?)?;
    }
    let mut source = MemSource::new(bytes.to_vec(alloc)?, 2, Vec::new(alloc));
    let mut out = SureSink::new(alloc);
    let mut err = SureSink::new(alloc);
    let mut last = None;
    let status = serve(
        rt,
        alloc,
        &texts,
        &mut source,
        &mut out,
        watch,
        &mut err,
        &mut last,
        gate,
    );
    Ok((status, last))
}
