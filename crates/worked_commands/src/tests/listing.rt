use fd_capture::CaptureFault;
use fd_device::Device;
use fd_listing::{list_events, open};
use fd_words::Ending;

const MARKED: &[u8] =
    br#"{"format": "framedbg", "version": 1, "width": 1, "height": 1, "events": [{"kind": "marker", "name": "a"}]}"#;

#[test]
fn a_capture_gives_its_table(rt: HostRuntime) {
    assert_eq!(rt; open(rt.alloc(), MARKED).map(|table| table.len()), Ok(1));
    let refused = open(rt.alloc(), b"{").map(|table| table.len());
    assert_eq!(rt; refused, Err(Ending::Capture(CaptureFault::NotJson)));
}

#[test]
fn a_list_is_written_and_flushed(rt: HostRuntime) {
    let mut sink = Device::new(Vec::new(rt.alloc()));
    assert_eq!(rt; list_events(rt.alloc(), MARKED, &mut sink), Ending::Done);
    assert_eq!(rt;
        sink.into_inner().as_slice(),
        b"events 1 at 0\n1 on marker a\n".as_slice()
    );
}
