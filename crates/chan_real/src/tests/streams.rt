use crate::{StreamSink, StreamSource};
use chan_io::{Sink, Source};
use chan_values::Text;
use std::test::Fail;

#[test]
fn a_reader_is_read_to_its_end(rt: HostRuntime) -> Result<(), Fail> {
    let mut source = StreamSource::new(b"abc".as_slice());
    let mut piece = [0u8; 2];
    assert!(rt; source.read(&mut piece) == Ok(2), "two bytes fit");
    assert!(rt; piece == *b"ab", "they are the first two");
    assert!(rt; source.read(&mut piece) == Ok(1), "one is left");
    assert!(rt; source.read(&mut piece) == Ok(0), "then the end");
    Ok(())
}

#[test]
fn a_writer_takes_all(rt: HostRuntime) -> Result<(), Fail> {
    let mut sink = StreamSink::new(Vec::new(rt.alloc()));
    assert!(rt; sink.write(b"ab").is_ok(), "it takes two bytes");
    assert!(rt; sink.write(b"c").is_ok(), "and one more");
    assert!(rt; sink.finish().is_ok(), "and is flushed");
    Ok(())
}

#[test]
fn a_text_is_copied(rt: HostRuntime) -> Result<(), Fail> {
    let text = Text::new(String::from_str(rt.alloc(), "abc")?);
    let copied = text.copy(rt.alloc())?;
    assert!(rt; copied.as_str() == "abc", "the copy is the text");
    Ok(())
}
