//! Readers and writers as devices, which tell of their bytes what std does: the standard streams tell nothing.

ghost use Rattle.std.specs.Prelude.{◌≡◌};

use crate::devices::{Failed, Sink, Source};
use std::io::{Read, Stderr, Stdin, Stdout, Write};
use std::marker::Model;

/// A source over a reader. Seen as the reader and the number of calls that failed.
#[derive(Drop)]
pub struct ReaderSource<R> {
    reader: R,
    faults: u64,
}

impl<R> Model for ReaderSource<R> {
    ghost use Rattle.std.specs.Prelude.{ℕ};

    ghost Value = { R × ℕ };

    ghost view = { λ s. (s.reader, s.faults) };
}

/// A sink over a writer. Seen as the writer and the number of calls that failed.
#[derive(Drop)]
pub struct WriterSink<W> {
    writer: W,
    faults: u64,
}

impl<W> Model for WriterSink<W> {
    ghost use Rattle.std.specs.Prelude.{ℕ};

    ghost Value = { W × ℕ };

    ghost view = { λ s. (s.writer, s.faults) };
}

/// Standard input.
pub type StdSource = ReaderSource<Stdin>;

/// Standard output.
pub type StdSink = WriterSink<Stdout>;

/// Standard error.
pub type StdErrSink = WriterSink<Stderr>;

impl<R> ReaderSource<R> {
    /// A source over a reader, of which no call failed yet.
    pub fn new(reader: R) -> ReaderSource<R>
        ensures { result ≡ (reader, 0) }
    {
        ReaderSource { reader, faults: 0 }
    }
}

impl<W> WriterSink<W> {
    /// A sink over a writer, of which no call failed yet.
    pub fn new(writer: W) -> WriterSink<W>
        ensures { result ≡ (writer, 0) }
    {
        WriterSink { writer, faults: 0 }
    }
}

impl<R: Read> Source for ReaderSource<R> {
    ghost left = { λ s. R.remaining s.0 };

    ghost faults = { λ s. s.1 };

    fn read(&mut self, buf: &mut [u8]) -> Result<usize, Failed> {
        match self.reader.read(buf) {
            Ok(n) => Ok(n),
            Err(_) => {
                self.faults = self.faults.saturating_add(1);
                Err(Failed)
            }
        }
    }
}

impl<W: Write> Sink for WriterSink<W> {
    ghost got = { λ s. W.contents s.0 };

    ghost faults = { λ s. s.1 };

    /// A writer that takes nothing of a piece would be called for ever: that is a failed call.
    fn write(&mut self, piece: &[u8]) -> Result<usize, Failed> {
        match self.writer.write(piece) {
            Ok(n) if n > 0 || piece.is_empty() => Ok(n),
            _ => {
                self.faults = self.faults.saturating_add(1);
                Err(Failed)
            }
        }
    }
}
