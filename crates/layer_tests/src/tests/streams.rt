use site_io::{Gate, HoldGate, NoGate, Point, Sink, Source, StdSink, StdSource};
use std::thread;

#[test]
fn standard_streams_and_a_gate_are_there(rt: HostRuntime) {
    let mut source = StdSource::new(rt.stdin());
    let mut sink = StdSink::new(rt.stdout());
    assert!(rt; source.read(&mut []) == Ok(0) && sink.write(b"") == Ok(0));
    NoGate.hold(&rt, 0, Point::Other);
}

#[test]
fn a_source_over_a_reader_gives_its_bytes_and_then_its_end(rt: HostRuntime) {
    let mut source = StdSource::new(b"ab".as_slice());
    let mut buffer = [0; 4];
    assert!(rt; source.read(&mut buffer) == Ok(2) && buffer == [b'a', b'b', 0, 0]);
    assert!(rt; source.read(&mut buffer) == Ok(0) && source.read(&mut buffer) == Ok(0));
}

#[test]
fn a_gate_that_holds_is_not_passed_where_nobody_signals(rt: HostRuntime) {
    let gate = HoldGate::new();
    let mut cpus = [0, 1];
    thread::for_each_mut(
        &rt,
        &mut cpus,
        2,
        &|_, cpu: &mut u32| {
            gate.hold(&rt, *cpu, Point::Online);
            gate.hold(&rt, *cpu, Point::Loaded(*cpu));
            gate.hold(&rt, *cpu, Point::Answered(*cpu));
        },
    );
    assert!(rt; !gate.passed(&rt));
}
