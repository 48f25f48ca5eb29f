//! A std reader as a source, and a std writer as a sink.

ghost use Rattle.std.specs.Prelude.{◌≡◌};

use crate::{Failed, Sink, Source};
use std::io::{Read, Write};

/// A std reader. It tells the bytes that the reader has left, where std knows them, and counts the
/// reader's errors.
#[derive(Drop)]
pub struct RealSource<R> {
    pub reader: R,
    pub faults: u64,
}

impl<R: Read> RealSource<R> {
    /// The source of this reader, with no fault yet.
    pub fn new(reader: R) -> RealSource<R>
        ensures { result ≡ record { reader = reader; faults = 0 } }
    {
        RealSource { reader, faults: 0 }
    }
}

impl<R: Read> Source for RealSource<R> {
    ghost left = { λ s. R.remaining s.reader };

    ghost faults = { λ s. s.faults };

    /// Gives what one read of the reader gives.
    fn read(&mut self, buf: &mut [u8]) -> Result<usize, Failed> {
        match self.reader.read(buf) {
            Ok(count) => Ok(count),
            Err(_) => {
                self.faults = self.faults.saturating_add(1);
                Err(Failed)
            }
        }
    }
}

/// A std writer. It tells the bytes that the writer holds, where std knows them, and counts the
/// writer's errors. A writer that takes nothing of some bytes has failed.
#[derive(Drop)]
pub struct RealSink<W> {
    pub writer: W,
    pub faults: u64,
}

impl<W: Write> RealSink<W> {
    /// The sink of this writer, with no fault yet.
    pub fn new(writer: W) -> RealSink<W>
        ensures { result ≡ record { writer = writer; faults = 0 } }
    {
        RealSink { writer, faults: 0 }
    }
}

impl<W: Write> Sink for RealSink<W> {
    ghost taken = { λ s. W.contents s.writer };

    ghost faults = { λ s. s.faults };

    /// Takes what one write of the writer takes.
    fn write(&mut self, bytes: &[u8]) -> Result<usize, Failed> {
        if bytes.is_empty() {
            return Ok(0);
        }
        match self.writer.write(bytes) {
            Ok(count) if count > 0 => Ok(count),
            _ => {
                self.faults = self.faults.saturating_add(1);
                Err(Failed)
            }
        }
    }
}
