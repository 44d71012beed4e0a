//! The documents of two seeds.

use cca_base::List;
use std::alloc::Global;
use std::test::*;
use trial_maker::trial;

/// The document of a seed.
fn document(alloc: Global, seed: u64) -> Option<List<u8>> {
    trial(alloc, seed).ok()
}

/// A checksum of some bytes: the digits of a number in base 31, of which 64 bits are kept.
fn checksum(bytes: &[u8]) -> u64 {
    let mut sum = 0u64;
    for b in bytes {
        sum = sum.wrapping_mul(31).wrapping_add(u64::from(*b));
    }
    sum
}

/// How many bytes the document of a seed has, and their checksum.
fn measured(alloc: Global, seed: u64) -> Option<(usize, u64)> {
    match document(alloc, seed) {
        Some(text) => Some((text.len(), checksum(text.as_slice()))),
        None => None,
    }
}

#[test]
fn two_documents_have_their_bytes(rt: HostRuntime) {
    assert!(rt; measured(rt.alloc(), 0) == Some((17124, 7060342069679021904)));
    assert!(rt; measured(rt.alloc(), 7) == Some((17072, 4207979679328940639)));
}
