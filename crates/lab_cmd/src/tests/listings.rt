//! What captures are listed as.

use super::run_bytes;
use crate::Status;
use agent_message::{CaptureCause, CaptureFault};
use std::test::Fail;

/// The piece of input_stream_data, number 0, id 1, "abc" as Output: its length and its bytes. FIPS 180-4
/// has the SHA-256 of "abc".
const PIECE: [u8; 127] = *b"\x00\x00\x00\x7b\x00\x00\x00\x74input_stream_data               \
    \x00\x00\x00\x01\x00\x00\x00\x00\x00\x00\x00\x01\x00\x00\x00\x00\x00\x00\x00\x00\
    \x00\x00\x00\x00\x00\x00\x00\x01\
    \x00\x00\x00\x00\x00\x00\x00\x01\x00\x00\x00\x00\x00\x00\x00\x00\
    \xba\x78\x16\xbf\x8f\x01\xcf\xea\x41\x41\x40\xde\x5d\xae\x22\x23\
    \xb0\x03\x61\xa3\x96\x17\x7a\x9c\xb4\x10\xff\x61\xf2\x00\x15\xad\
    \x00\x00\x00\x01\x00\x00\x00\x03abc";

/// Its line, at the beginning of a capture.
const LINE: &[u8] = b"0 input_stream_data 0 1 1 3 00000000-0000-0000-0000-000000000001\n";

#[test]
fn a_capture_is_listed(rt: HostRuntime) -> Result<(), Fail> {
    let (status, sink) = run_bytes(rt.alloc(), "--show", &PIECE)?;
    assert_eq!(rt; status, Status::Ok);
    assert_eq!(rt; sink.taken(), LINE);
    Ok(())
}

#[test]
fn a_faulty_capture_is_told_by_its_first_fault(rt: HostRuntime) -> Result<(), Fail> {
    let cases = [
        (&PIECE[..126], CaptureCause::Cut(126)),
        (b"\x00\x01\x00\x79".as_slice(), CaptureCause::Size(65_657)),
    ];
    for (capture, cause) in cases {
        let (status, sink) = run_bytes(rt.alloc(), "--show", capture)?;
        let fault = CaptureFault { at: 0, cause };
        assert_eq!(rt; status, Status::BadCapture(fault), "{cause:?}");
        assert!(rt; sink.taken().is_empty(), "{cause:?}: nothing is written");
    }
    Ok(())
}

#[test]
fn the_lines_before_a_fault_stay(rt: HostRuntime) -> Result<(), Fail> {
    let mut capture = PIECE.to_vec(rt.alloc())?;
    capture.push(0)?;
    let (status, sink) = run_bytes(rt.alloc(), "--show", &capture)?;
    let cause = CaptureCause::Cut(1);
    assert_eq!(rt; status, Status::BadCapture(CaptureFault { at: 127, cause }));
    assert_eq!(rt; sink.taken(), LINE);
    Ok(())
}
