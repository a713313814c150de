use crate::{ShowStop, show};
use agent_message::{CaptureCause, CaptureFault, Message, Name, Refusal, capture_piece};
use chan_io::FaultySink;
use chan_values::Bytes;
use std::alloc::{AllocError, Global};
use std::test::Fail;

/// The piece of input_stream_data, number 0, id 1, "abc" as Output. FIPS 180-4 has the SHA-256 of
/// "abc".
const PIECE: [u8; 127] = *b"\x00\x00\x00\x7b\x00\x00\x00\x74input_stream_data               \
    \x00\x00\x00\x01\x00\x00\x00\x00\x00\x00\x00\x01\x00\x00\x00\x00\x00\x00\x00\x00\
    \x00\x00\x00\x00\x00\x00\x00\x01\
    \x00\x00\x00\x00\x00\x00\x00\x01\x00\x00\x00\x00\x00\x00\x00\x00\
    \xba\x78\x16\xbf\x8f\x01\xcf\xea\x41\x41\x40\xde\x5d\xae\x22\x23\
    \xb0\x03\x61\xa3\x96\x17\x7a\x9c\xb4\x10\xff\x61\xf2\x00\x15\xad\
    \x00\x00\x00\x01\x00\x00\x00\x03abc";

const LINE: &[u8] = b"0 input_stream_data 0 1 1 3 00000000-0000-0000-0000-000000000001\n";

#[test]
fn a_message_is_one_line(rt: HostRuntime) -> Result<(), Fail> {
    let mut sink = FaultySink::new(rt.alloc(), Vec::new(rt.alloc()));
    assert_eq!(rt; show(rt.alloc(), &PIECE, &mut sink), Ok(()));
    assert_eq!(rt; sink.taken(), LINE);
    Ok(())
}

#[test]
fn an_empty_capture_has_no_line(rt: HostRuntime) -> Result<(), Fail> {
    let mut sink = FaultySink::new(rt.alloc(), Vec::new(rt.alloc()));
    assert_eq!(rt; show(rt.alloc(), b"", &mut sink), Ok(()));
    assert!(rt; sink.taken().is_empty(), "nothing is written");
    Ok(())
}

#[test]
fn a_cut_capture_is_told_by_its_place(rt: HostRuntime) -> Result<(), Fail> {
    let mut sink = FaultySink::new(rt.alloc(), Vec::new(rt.alloc()));
    let cut = CaptureFault {
        at: 0,
        cause: CaptureCause::Cut(126),
    };
    let shown = show(rt.alloc(), &PIECE[..126], &mut sink);
    assert_eq!(rt; shown, Err(ShowStop::Fault(cut)));
    assert!(rt; sink.taken().is_empty(), "nothing is written");
    Ok(())
}

#[test]
fn lines_before_a_fault_are_written(rt: HostRuntime) -> Result<(), Fail> {
    let cases = [
        // A length of 65,657.
        (b"\x00\x01\x00\x79".as_slice(), CaptureCause::Size(65_657)),
        // A message of one byte.
        (
            b"\x00\x00\x00\x01z".as_slice(),
            CaptureCause::Message(Refusal::Short(1)),
        ),
        (b"\x00\x01".as_slice(), CaptureCause::Cut(2)),
    ];
    for (behind, cause) in cases {
        let mut capture = PIECE.to_vec(rt.alloc())?;
        capture.extend_from_slice(behind)?;
        let mut sink = FaultySink::new(rt.alloc(), Vec::new(rt.alloc()));
        let fault = CaptureFault { at: 127, cause };
        let shown = show(rt.alloc(), &capture, &mut sink);
        assert_eq!(rt; shown, Err(ShowStop::Fault(fault)), "{cause:?}");
        assert_eq!(rt; sink.taken(), LINE, "{cause:?}");
    }
    Ok(())
}

#[test]
fn a_failed_write_wins_over_a_fault(rt: HostRuntime) -> Result<(), Fail> {
    let mut capture = PIECE.to_vec(rt.alloc())?;
    capture.push(0)?;
    let mut sink = FaultySink::new(rt.alloc(), vec![in rt.alloc(); 0]?);
    assert_eq!(rt; show(rt.alloc(), &capture, &mut sink), Err(ShowStop::Write));
    assert!(rt; sink.taken().is_empty(), "nothing is written");
    Ok(())
}

#[test]
fn a_line_has_the_fields_of_its_message(rt: HostRuntime) -> Result<(), Fail> {
    let message = Message {
        name: Name::channel_closed(),
        schema: 1,
        date: 9,
        seq: -9_223_372_036_854_775_808,
        flags: 18_446_744_073_709_551_615,
        id: *b"\x0a\x1b\x2c\x3d\x4e\x5f\x60\x71\x82\x93\xa4\xb5\xc6\xd7\xe8\xf9",
        ptype: 4_294_967_295,
        payload: Bytes::new(Vec::new(rt.alloc())),
    };
    let mut capture = PIECE.to_vec(rt.alloc())?;
    capture.extend_from_slice(&capture_piece(rt.alloc(), &message)?)?;
    let mut sink = FaultySink::new(rt.alloc(), Vec::new(rt.alloc()));
    assert_eq!(rt; show(rt.alloc(), &capture, &mut sink), Ok(()));
    let lines = b"0 input_stream_data 0 1 1 3 00000000-0000-0000-0000-000000000001\n\
        127 channel_closed -9223372036854775808 18446744073709551615 4294967295 0 \
        0a1b2c3d-4e5f-6071-8293-a4b5c6d7e8f9\n";
    assert_eq!(rt; sink.taken(), lines.as_slice());
    Ok(())
}

#[test]
fn a_long_capture_is_shown_whole(rt: HostRuntime) -> Result<(), Fail> {
    let capture = repeated(rt.alloc(), 1_000)?;
    let mut sink = FaultySink::new(rt.alloc(), Vec::new(rt.alloc()));
    assert_eq!(rt; show(rt.alloc(), &capture, &mut sink), Ok(()));
    let feeds = sink.taken().iter().filter(|byte| **byte == b'\n').count();
    assert_eq!(rt; feeds, 1_000);
    // 999 pieces of 127 bytes stand before the last.
    let last = b"\n126873 input_stream_data 0 1 1 3 00000000-0000-0000-0000-000000000001\n";
    assert!(rt; sink.taken().ends_with(last), "the last line has its place");
    Ok(())
}

fn repeated(alloc: Global, count: usize) -> Result<Vec<u8>, AllocError> {
    let mut capture = Vec::new(alloc);
    for _ in 0..count {
        capture.extend_from_slice(&PIECE)?;
    }
    Ok(capture)
}
