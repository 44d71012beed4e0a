//! A source and a sink over memory that never fail.

use std::alloc::Global;
use std::test::*;
use titan_wire::*;

fn is_taken(source: &mut SteadySource, wanted: &[u8]) -> bool {
    let mut buf = [0u8; 3];
    match source.take(&mut buf) {
        Ok(n) => n == wanted.len() && n <= 3 && &buf[..n] == wanted,
        Err(_) => false,
    }
}

/// Whether a source of these bytes gives the pieces, and then nothing, in a buffer of three bytes.
fn gives(alloc: Global, bytes: &[u8], first: &[u8], second: &[u8]) -> bool {
    let Ok(bytes) = Vec::from_slice(alloc, bytes) else {
        return false;
    };
    let mut source = SteadySource::new(bytes);
    is_taken(&mut source, first) && is_taken(&mut source, second) && is_taken(&mut source, b"")
}

#[test]
fn a_steady_source_gives_all_that_fits(rt: HostRuntime) {
    assert!(rt; gives(rt.alloc(), b"abcde", b"abc", b"de"));
}

/// Whether a sink with just the room for these bytes takes them.
fn is_put(alloc: Global, bytes: &[u8]) -> bool {
    match SteadySink::new(alloc, bytes.len()) {
        Ok(mut sink) => put_all(&mut sink, bytes) == PutEnd::Done && sink.bytes() == bytes,
        Err(_) => false,
    }
}

#[test]
fn a_steady_sink_takes_its_capacity(rt: HostRuntime) {
    assert!(rt; is_put(rt.alloc(), b"abc"));
}
