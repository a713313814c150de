use super::*;
use std::test::Fail;

/// Two pieces: input_stream_data, number 0, id 1, "abc" as Output (FIPS 180-4 has its SHA-256), and
/// an empty start_publication without a date.
const CAPTURE: [u8; 251] = *b"\x00\x00\x00\x7b\x00\x00\x00\x74input_stream_data               \
    \x00\x00\x00\x01\x00\x00\x00\x00\x00\x00\x00\x01\x00\x00\x00\x00\x00\x00\x00\x00\
    \x00\x00\x00\x00\x00\x00\x00\x01\
    \x00\x00\x00\x00\x00\x00\x00\x01\x00\x00\x00\x00\x00\x00\x00\x00\
    \xba\x78\x16\xbf\x8f\x01\xcf\xea\x41\x41\x40\xde\x5d\xae\x22\x23\
    \xb0\x03\x61\xa3\x96\x17\x7a\x9c\xb4\x10\xff\x61\xf2\x00\x15\xad\
    \x00\x00\x00\x01\x00\x00\x00\x03abc\
    \x00\x00\x00\x78\x00\x00\x00\x74start_publication               \
    \x00\x00\x00\x01\x00\x00\x00\x00\x00\x00\x00\x00\x00\x00\x00\x00\x00\x00\x00\x00\
    \x00\x00\x00\x00\x00\x00\x00\x00\
    \x00\x00\x00\x00\x00\x00\x00\x00\x00\x00\x00\x00\x00\x00\x00\x00\
    \x00\x00\x00\x00\x00\x00\x00\x00\x00\x00\x00\x00\x00\x00\x00\x00\
    \x00\x00\x00\x00\x00\x00\x00\x00\x00\x00\x00\x00\x00\x00\x00\x00\
    \x00\x00\x00\x00\x00\x00\x00\x00";

/// The length of the first of the two pieces.
const FIRST: usize = 127;

#[test]
fn a_piece_is_the_length_and_the_message(rt: HostRuntime) -> Result<(), Fail> {
    let message = decode(rt.alloc(), &CAPTURE[4..FIRST])?;
    let piece = capture_piece(rt.alloc(), &message)?;
    assert_eq!(rt; piece.as_slice(), &CAPTURE[..FIRST]);
    Ok(())
}

#[test]
fn a_capture_is_read_wherever_it_is_cut(rt: HostRuntime) -> Result<(), Fail> {
    for cut in 0..CAPTURE.len() {
        let mut reader = CaptureReader::new(rt.alloc());
        let first = reader.feed(&CAPTURE[..cut])?;
        let second = reader.feed(&CAPTURE[cut..])?;
        let whole = if cut < FIRST { 0 } else { 1 };
        assert_eq!(rt; first.messages.as_slice().len(), whole, "before {cut}");
        assert_eq!(rt; second.messages.as_slice().len(), 2 - whole, "behind {cut}");
        assert_eq!(rt; first.fault, None, "before {cut}");
        assert_eq!(rt; second.fault, None, "behind {cut}");
        assert_eq!(rt; reader.end(), None, "cut at {cut}");
    }
    Ok(())
}

#[test]
fn messages_come_in_their_order(rt: HostRuntime) -> Result<(), Fail> {
    let mut reader = CaptureReader::new(rt.alloc());
    let captured = reader.feed(&CAPTURE)?;
    let messages = captured.messages.into_vec();
    assert_eq!(rt; messages.len(), 2);
    assert_eq!(rt; messages[0].name, Name::input_stream_data());
    assert_eq!(rt; messages[0].payload.as_slice(), b"abc".as_slice());
    assert_eq!(rt; messages[1].name, Name::start_publication());
    Ok(())
}

#[test]
fn a_length_is_judged_at_its_fourth_byte(rt: HostRuntime) -> Result<(), Fail> {
    // 65,657
    let mut reader = CaptureReader::new(rt.alloc());
    assert_eq!(rt; reader.feed(b"\x00\x01\x00")?.fault, None);
    let fault = Some(CaptureFault {
        at: 0,
        cause: CaptureCause::Size(65_657),
    });
    assert_eq!(rt; reader.feed(b"\x79")?.fault, fault);
    assert_eq!(rt; reader.end(), fault);

    // 65,656
    let mut reader = CaptureReader::new(rt.alloc());
    assert_eq!(rt; reader.feed(b"\x00\x01\x00\x78\x00")?.fault, None);
    let cut = CaptureFault {
        at: 0,
        cause: CaptureCause::Cut(5),
    };
    assert_eq!(rt; reader.end(), Some(cut));
    Ok(())
}

#[test]
fn a_fault_is_told_with_its_place_again_and_again(rt: HostRuntime) -> Result<(), Fail> {
    // A byte of the second message's name is no name byte.
    let mut bytes = CAPTURE;
    bytes[FIRST + 8] = b'-';
    let fault = Some(CaptureFault {
        at: 127,
        cause: CaptureCause::Message(Refusal::Name(4)),
    });
    let mut reader = CaptureReader::new(rt.alloc());
    let captured = reader.feed(&bytes)?;
    assert_eq!(rt; captured.messages.as_slice().len(), 1);
    assert_eq!(rt; captured.fault, fault);
    for _ in 0..2 {
        let later = reader.feed(&CAPTURE)?;
        assert!(rt;
            later.messages.as_slice().is_empty(),
            "nothing more is read"
        );
        assert_eq!(rt; later.fault, fault);
    }
    assert_eq!(rt; reader.end(), fault);
    Ok(())
}

#[test]
fn an_empty_piece_has_a_short_message(rt: HostRuntime) -> Result<(), Fail> {
    let mut reader = CaptureReader::new(rt.alloc());
    let fault = CaptureFault {
        at: 0,
        cause: CaptureCause::Message(Refusal::Short(0)),
    };
    assert_eq!(rt; reader.feed(b"\x00\x00\x00\x00")?.fault, Some(fault));
    Ok(())
}

#[test]
fn a_cut_is_told_at_the_end(rt: HostRuntime) -> Result<(), Fail> {
    let cases = [
        (0, None),
        (1, Some((0, 1))),
        (126, Some((0, 126))),
        (127, None),
        (130, Some((127, 3))),
    ];
    for (length, cut) in cases {
        let mut reader = CaptureReader::new(rt.alloc());
        assert_eq!(rt;
            reader.feed(&CAPTURE[..length])?.fault,
            None,
            "after {length}"
        );
        let fault = match cut {
            None => None,
            Some((at, have)) => Some(CaptureFault {
                at,
                cause: CaptureCause::Cut(have),
            }),
        };
        assert_eq!(rt; reader.end(), fault, "after {length}");
    }
    Ok(())
}

#[test]
fn causes_are_numbered_in_their_order(rt: HostRuntime) {
    let cases = [
        (CaptureCause::Size(65_657), 1),
        (CaptureCause::Message(Refusal::Date), 2),
        (CaptureCause::Cut(1), 3),
    ];
    for (cause, number) in cases {
        assert_eq!(rt; cause.number(), number, "{cause:?}");
    }
}
