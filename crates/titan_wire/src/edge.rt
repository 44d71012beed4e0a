//! Sources and sinks over real readers and writers.

ghost use Rattle.std.specs.Prelude.{◌≡◌, ◌^◌, ◌<◌, ◌≤◌, length, take, Some, None, IfOk, OnErr};
ghost use Rattle.std.specs.Io.KnownBytes.{ReadConsumes, Appends};
ghost use Rattle.titan_wire.specs.Wire.{HasCause, faults_after};
ghost use Rattle.titan_wire.specs.Front.{AppendsFront};

use crate::wire::{Failed, Sink, Source};
use std::io::{ErrorKind, Read, Write};

/// One read, tried again as long as it is interrupted.
fn read_once<R: Read>(reader: &mut R, buf: &mut [u8]) -> Result<usize, Failed>
    ensures count { IfOk result (λ n. n ≤ length buf.old) }
    ensures bytes { ReadConsumes (R.remaining reader.old) (R.remaining reader.new) result buf.new }
{
    for _ in 0..u64::MAX {
        match reader.read(buf) {
            Ok(count) => return Ok(count),
            Err(e) => {
                if e.kind() != ErrorKind::Interrupted {
                    break;
                }
            }
        }
    }
    Err(Failed)
}

/// One write, tried again as long as it is interrupted, and then a flush. Bytes that were written and
/// then not flushed stay written.
#[tactic(auto, using(crate::proofs::FailedWrites::kept, crate::proofs::FailedWrites::written, crate::proofs::FailedWrites::written_and_kept))]
fn write_once<W: Write>(writer: &mut W, piece: &[u8]) -> Result<usize, Failed>
    ensures count { IfOk result (λ n. (0 < n) × (n ≤ length piece.now)) }
    ensures bytes { IfOk result (λ n.
        Appends (W.contents writer.old) (W.contents writer.new) (take n piece.now)) }
    ensures err { OnErr result
        (AppendsFront (W.contents writer.old) (W.contents writer.new) piece.now) }
{
    for _ in 0..u64::MAX {
        match writer.write(piece) {
            Ok(count) => {
                if count == 0 {
                    return Err(Failed);
                }
                if writer.flush().is_err() {
                    return Err(Failed);
                }
                return Ok(count);
            }
            Err(e) => {
                if e.kind() != ErrorKind::Interrupted {
                    return Err(Failed);
                }
            }
        }
    }
    Err(Failed)
}

/// A source over a reader, by one read a call. An interrupted read is tried again. Its
/// bytes are unknown.
#[derive(Drop)]
pub struct ReaderSource<R: Read> {
    reader: R,
    faults: u64,
    ghost fits: { faults < 2 ^ 64 },
}

impl<R: Read> ReaderSource<R> {
    ghost use Rattle.titan_wire.specs.Edge.{reader_of};

    /// A source that has not read yet.
    pub fn new(reader: R) -> ReaderSource<R>
        ensures reader { reader_of result ≡ reader }
        ensures faults { ⟦<ReaderSource<R> as Source>⟧.faults result ≡ 0 }
    {
        ReaderSource { reader, faults: 0 }
    }
}

impl<R: Read> Source for ReaderSource<R> {
    ghost use Rattle.titan_wire.specs.Edge.{reader_of, reader_faults};

    ghost left = { λ _. None };

    ghost faults = { reader_faults };

    ghost fits = { λ s. s.fits };

    fn take(&mut self, buf: &mut [u8]) -> Result<usize, Failed>
        requires { 0 < length buf.old }
        ensures count { IfOk result (λ n. n ≤ length buf.old) }
        ensures cause { HasCause (reader_faults self.old) (reader_faults self.new) result }
        ensures faults { reader_faults self.new ≡ faults_after (reader_faults self.old) result }
        ensures bytes { ReadConsumes
            (R.remaining (reader_of self.old)) (R.remaining (reader_of self.new)) result buf.new }
    {
        let result = read_once(&mut self.reader, buf);
        if result.is_err() {
            self.faults = self.faults.saturating_add(1);
        }
        result
    }
}

/// A sink over a writer, by one write a call and then a flush. An interrupted write is tried again,
/// and one of no bytes is a fault. Its bytes are unknown.
#[derive(Drop)]
pub struct WriterSink<W: Write> {
    writer: W,
    faults: u64,
    ghost fits: { faults < 2 ^ 64 },
}

impl<W: Write> WriterSink<W> {
    ghost use Rattle.titan_wire.specs.Edge.{writer_of};

    /// A sink that has not written yet.
    pub fn new(writer: W) -> WriterSink<W>
        ensures writer { writer_of result ≡ writer }
        ensures faults { ⟦<WriterSink<W> as Sink>⟧.faults result ≡ 0 }
    {
        WriterSink { writer, faults: 0 }
    }
}

impl<W: Write> Sink for WriterSink<W> {
    ghost use Rattle.titan_wire.specs.Edge.{writer_of, writer_faults};

    ghost written = { λ _. None };

    ghost space = { λ _. None };

    ghost faults = { writer_faults };

    ghost fits = { λ s. s.fits };

    fn put(&mut self, piece: &[u8]) -> Result<usize, Failed>
        requires { 0 < length piece.now }
        ensures count { IfOk result (λ n. (0 < n) × (n ≤ length piece.now)) }
        ensures cause { HasCause (writer_faults self.old) (writer_faults self.new) result }
        ensures faults { writer_faults self.new ≡ faults_after (writer_faults self.old) result }
        ensures bytes { IfOk result (λ n. Appends
            (W.contents (writer_of self.old)) (W.contents (writer_of self.new))
            (take n piece.now)) }

        // A piece that failed isn't written again: the writer got a front of it, or nothing.
        ensures err_bytes { OnErr result (AppendsFront
            (W.contents (writer_of self.old)) (W.contents (writer_of self.new)) piece.now) }
    {
        let result = write_once(&mut self.writer, piece);
        if result.is_err() {
            self.faults = self.faults.saturating_add(1);
        }
        result
    }
}

#[cfg(test)]
mod tests {
    use super::*;
    use crate::wire::{PutEnd, put_all};
    use std::io;
    use std::test::Fail;

    /// Gives a byte a call, but is interrupted at the second call and fails at the fourth.
    #[derive(Drop)]
    struct FlakyReader {
        calls: u8,
    }

    impl Read for FlakyReader {
        fn read(&mut self, buf: &mut [u8]) -> io::Result<usize> {
            self.calls = self.calls.saturating_add(1);
            match (self.calls, buf.first_mut()) {
                (2, _) => Err(io::Error::from(ErrorKind::Interrupted)),
                (4, _) => Err(io::Error::from(ErrorKind::BrokenPipe)),
                (calls, Some(place)) if calls < 6 => {
                    *place = calls;
                    Ok(1)
                }
                _ => Ok(0),
            }
        }
    }

    #[test]
    fn reader_fails_once(rt: HostRuntime) {
        let mut source = ReaderSource::new(FlakyReader { calls: 0 });
        let cases = [
            (Ok(1), 1, 0),
            (Ok(1), 3, 0),
            (Err(Failed), 3, 1),
            (Ok(1), 5, 1),
            (Ok(0), 5, 1),
        ];
        let mut buf = [0; 4];
        for (answer, byte, faults) in cases {
            assert_eq!(rt; source.take(&mut buf), answer);
            assert_eq!(rt; buf[0], byte);
            assert_eq!(rt; source.faults, faults);
        }
    }

    /// Takes two bytes a call, but is interrupted at the second call, fails at the fourth and
    /// takes nothing at the fifth. Its third flush fails.
    #[derive(Drop)]
    struct FlakyWriter {
        bytes: Vec<u8>,
        calls: u8,
        flushes: u8,
    }

    impl Write for FlakyWriter {
        fn write(&mut self, buf: &[u8]) -> io::Result<usize> {
            self.calls = self.calls.saturating_add(1);
            match self.calls {
                2 => Err(io::Error::from(ErrorKind::Interrupted)),
                4 => Err(io::Error::from(ErrorKind::BrokenPipe)),
                5 => Ok(0),
                _ => {
                    let count = buf.len().min(2);
                    self.bytes.extend_from_slice(&buf[..count])?;
                    Ok(count)
                }
            }
        }

        fn flush(&mut self) -> io::Result<()> {
            self.flushes = self.flushes.saturating_add(1);
            if self.flushes == 3 {
                return Err(io::Error::from(ErrorKind::BrokenPipe));
            }
            Ok(())
        }
    }

    /// Fails at each call with this kind of error.
    #[derive(Drop)]
    struct Failing {
        kind: ErrorKind,
        calls: u8,
    }

    impl Read for Failing {
        fn read(&mut self, _buf: &mut [u8]) -> io::Result<usize> {
            self.calls = self.calls.saturating_add(1);
            Err(io::Error::from(self.kind))
        }
    }

    impl Write for Failing {
        fn write(&mut self, _buf: &[u8]) -> io::Result<usize> {
            self.calls = self.calls.saturating_add(1);
            Err(io::Error::from(self.kind))
        }

        fn flush(&mut self) -> io::Result<()> {
            Ok(())
        }
    }

    #[test]
    fn only_an_interruption_is_tried_again(rt: HostRuntime) {
        let kinds = [
            ErrorKind::BrokenPipe,
            ErrorKind::StorageFull,
            ErrorKind::WouldBlock,
            ErrorKind::TimedOut,
            ErrorKind::PermissionDenied,
            ErrorKind::ConnectionReset,
            ErrorKind::UnexpectedEof,
            ErrorKind::Other,
        ];
        for kind in kinds {
            let mut buf = [0; 4];
            let mut source = ReaderSource::new(Failing { kind, calls: 0 });
            assert_eq!(rt; source.take(&mut buf), Err(Failed));
            assert_eq!(rt; source.reader.calls, 1);
            let mut sink = WriterSink::new(Failing { kind, calls: 0 });
            assert_eq!(rt; sink.put(b"abc"), Err(Failed));
            assert_eq!(rt; sink.writer.calls, 1);
        }
    }

    #[test]
    fn writer_fails_at_times(rt: HostRuntime) -> Result<(), Fail> {
        let mut sink = WriterSink::new(FlakyWriter {
            bytes: Vec::new(rt.alloc()),
            calls: 0,
            flushes: 0,
        });
        let cases = [
            (PutEnd::WriteFault { sent: 4 }, "abcd", 1),
            (PutEnd::WriteFault { sent: 0 }, "abcd", 2),
            (PutEnd::WriteFault { sent: 0 }, "abcdab", 3),
            (PutEnd::Done, "abcdababcdef", 3),
        ];
        for (end, bytes, faults) in cases {
            assert_eq!(rt; put_all(&mut sink, b"abcdef"), end);
            assert_eq!(rt; sink.writer.bytes.as_slice(), bytes.as_bytes());
            assert_eq!(rt; sink.faults, faults);
        }
        assert_eq!(rt; sink.writer.flushes, 6);
        Ok(())
    }
}
