//! Sinks at concrete types: a slice, and a vector with reserved capacity.

use coap_wire::{Builder, Code, Sink, SliceSink, TokenRef};
use std::process::Abort;
use std::test::Fail;

/// Pushes a byte, writes a CSM with a Max-Message-Size of 65,536 and appends two bytes: aa 40e123010000 bbcc. Asserts
/// that each write reduces the room.
fn fill<S: Sink>(rt: &impl Abort, sink: &mut S) -> Result<(), Fail> {
    let mut message = Builder::with_token_ref(Code::CSM, TokenRef::empty());
    message.option(2, &[1, 0, 0])?;
    let room = sink.room();
    assert!(rt; room > 0);
    sink.push(0xaa);
    assert!(rt; sink.room() == room - 1);
    assert!(rt; message.size() <= sink.room() as u64);
    message.write(sink);
    assert!(rt; 2 <= sink.room());
    sink.append(&[0xbb, 0xcc]);
    Ok(())
}

#[test]
fn writes_into_a_slice(rt: HostRuntime) -> Result<(), Fail> {
    let mut bytes = [0x99; 10];
    let mut sink = SliceSink::new(&mut bytes);
    fill(&rt, &mut sink)?;
    assert!(&rt; sink.room() == 1);
    assert!(&rt; sink.written() == b"\xaa\x40\xe1\x23\x01\x00\x00\xbb\xcc".as_slice());
    // The slice keeps what was written, and the byte after it is unchanged.
    assert!(&rt; bytes.as_slice() == b"\xaa\x40\xe1\x23\x01\x00\x00\xbb\xcc\x99".as_slice());
    Ok(())
}

#[test]
fn writes_after_content(rt: HostRuntime) -> Result<(), Fail> {
    let mut bytes = Vec::with_capacity(rt.alloc(), 10)?;
    bytes.push(0x99)?;
    fill(&rt, &mut bytes)?;
    assert!(&rt; bytes.room() == 0);
    let wanted = b"\x99\xaa\x40\xe1\x23\x01\x00\x00\xbb\xcc";
    assert!(&rt; bytes.as_slice() == wanted.as_slice());
    Ok(())
}
