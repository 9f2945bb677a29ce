use ips_host::HostSink;
use ips_outside::Sink;

#[test]
fn writes_to_standard_output(rt: HostRuntime) {
    let mut sink = HostSink::new(rt.clone().expect(&rt, "memory"));
    assert!(rt; matches!(sink.write(b"report\n"), Ok(1..=7)));
    assert!(rt; sink.write(b"") == Ok(0));
}
