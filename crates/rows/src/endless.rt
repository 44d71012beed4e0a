//! A source that never ends.
ghost use Rattle.std.specs.Prelude.{◌≡◌, ◌<◌, ◌≤◌, [], length, take, None, Some, IfOk, OnErr};
ghost use Rattle.std.proofs.Common.{lit<};
ghost use Rattle.std.specs.Io.KnownBytes.{prepend_known, IsAtEnd};
ghost use Rattle.titan_wire.specs.Wire.{HasCause};

use titan_wire::{Failed, Source};

/// Fills each buffer with one byte, and never fails.
#[derive(Debug, Drop)]
pub struct EndlessSource {
    byte: u8,
}

impl EndlessSource {
    pub fn new(byte: u8) -> EndlessSource {
        EndlessSource { byte }
    }
}

impl Source for EndlessSource {
    ghost left = { λ _. None };

    ghost faults = { λ _. 0 };

    ghost fits = { λ _. lit< tt };

    fn take(&mut self, buf: &mut [u8]) -> Result<usize, Failed> {
        buf.fill(self.byte);
        Ok(buf.len())
    }
}
