//! A source that gives few bytes a call.
ghost use Rattle.std.specs.Prelude.{◌≡◌, ◌<◌, ◌≤◌, [], length, take, Some, IfOk, OnErr};
ghost use Rattle.std.specs.Io.KnownBytes.{prepend_known, IsAtEnd};
ghost use Rattle.titan_wire.specs.Wire.{HasCause};

use titan_wire::{Failed, Source};

/// A source that gives at most so many bytes a call of those that another one has.
#[derive(Drop)]
pub struct PieceSource<S: Source> {
    source: S,
    most: usize,
}

impl<S: Source> PieceSource<S> {
    /// Of no bytes a call it makes one.
    pub fn new(source: S, most: usize) -> PieceSource<S> {
        PieceSource { source, most }
    }
}

impl<S: Source> Source for PieceSource<S> {
    ghost left = { λ s. S.left s.source };

    ghost faults = { λ s. S.faults s.source };

    ghost fits = { λ s. S.fits s.source };

    fn take(&mut self, buf: &mut [u8]) -> Result<usize, Failed> {
        let most = self.most.max(1).min(buf.len());
        self.source.take(&mut buf[..most])
    }
}
