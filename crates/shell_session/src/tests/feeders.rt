//! What feeds a session.

ghost use Rattle.std.specs.Prelude.{◌≡◌, IfOk, None};

use crate::StreamFeeder;
use chan_io::FaultySource;
use session_feeds::{Fed, Feeder};
use std::alloc::Global;
use std::test::Fail;

/// A feeder of 1,030 bytes, of whose source these reads fail.
fn feeder(alloc: Global, failing: &[u64]) -> Result<StreamFeeder<FaultySource>, Fail>
    ensures { IfOk result (λ feeder. feeder.came ≡ None) }
{
    let source = FaultySource::new(
        vec![in alloc; 97u8; 1030]?,
        Vec::from_slice(alloc, failing)?,
    );
    Ok(StreamFeeder::new(alloc, source, 11))
}

#[test]
fn each_read_is_a_piece(rt: HostRuntime) -> Result<(), Fail> {
    let mut feeder = feeder(rt.alloc(), &[])?;
    let Fed::Piece(first) = feeder.next() else {
        return Err(super::OtherAnswer)?;
    };
    assert!(rt;
        first.ptype == 11 && first.payload.len() == 1024,
        "1,024 bytes at most"
    );
    let Fed::Piece(second) = feeder.next() else {
        return Err(super::OtherAnswer)?;
    };
    assert!(rt;
        second.ptype == 11 && second.payload.len() == 6,
        "then the rest"
    );
    assert!(rt; matches!(feeder.next(), Fed::Over), "and the end");
    Ok(())
}

#[test]
fn a_read_that_fails_is_told(rt: HostRuntime) -> Result<(), Fail> {
    let mut feeder = feeder(rt.alloc(), &[0])?;
    assert!(rt;
        matches!(feeder.next(), Fed::Failed),
        "the first read failed"
    );
    Ok(())
}
