// The standard streams, and a sink that keeps all.
use avida_port::{Sink, Source, StdSink, StdSource, SureSink};
use std::test::Fail;

#[test]
fn standard_input_at_its_end_gives_nothing(rt: HostRuntime) -> Result<(), Fail> {
    let mut source = StdSource::new(&rt);
    let mut room = [0u8; 4];
    assert_eq!(rt; source.fill(&mut room), Ok(0));
    Ok(())
}

#[test]
fn a_sure_sink_keeps_each_piece(rt: HostRuntime) -> Result<(), Fail> {
    let mut sink = SureSink::new(rt.alloc());
    assert_eq!(rt; sink.put(b"ab"), Ok(()));
    assert_eq!(rt; sink.put(b""), Ok(()));
    assert_eq!(rt; sink.put(b"c"), Ok(()));
    assert_eq!(rt; sink.bytes(), b"abc".as_slice());
    Ok(())
}

#[test]
fn both_standard_streams_take_a_line(rt: HostRuntime) -> Result<(), Fail> {
    assert_eq!(rt; StdSink::out(&rt).put(b"out\n"), Ok(()));
    assert_eq!(rt; StdSink::err(&rt).put(b"err\n"), Ok(()));
    Ok(())
}
