ghost use Rattle.std.specs.Prelude.{◌≡◌, ◌<◌, ◌≤◌, None, length, IfOk, OnOk, OnErr};
ghost use Rattle.std.specs.Io.KnownBytes.{ReadConsumes, WriteAppends};
ghost use Rattle.site_io.specs.Faults.{HasCause, counted};
ghost use Rattle.site_io.specs.Standard.{read_faults, reader_of, write_faults, writer_of};

use crate::stream::{Failed, Sink, Source};
use std::io::{Read, Write};

/// A source over a reader, as standard input: `StdSource::new(rt.stdin())`.
///
/// As a source it tells nothing of the bytes. It has a count of its faults, which each error of
/// the reader raises, up to 2^64 - 1.
#[derive(Drop)]
pub struct StdSource<R> {
    reader: R,
    faults: u64,
}

impl<R: Read> StdSource<R> {
    /// A source of what the reader gives. No fault is counted yet.
    pub fn new(reader: R) -> StdSource<R>
        ensures reader { reader_of result ≡ reader }
        ensures faults { read_faults result ≡ 0 }
    {
        StdSource { reader, faults: 0 }
    }
}

impl<R: Read> Source for StdSource<R> {
    ghost left = { λ _. None };

    ghost faults = { λ source. source.faults };

    fn read(&mut self, buf: &mut [u8]) -> Result<usize, Failed>
        ensures bound { IfOk result (λ count. count ≤ length buf.new) }
        ensures cause { HasCause (read_faults self.old) (read_faults self.new) result }

        // What the reader itself tells of its bytes holds of this read.
        ensures reader { ReadConsumes (R.remaining (reader_of self.old)) (R.remaining (reader_of self.new))
            result buf.new }
        ensures ok { OnOk result (read_faults self.new ≡ read_faults self.old) }
        ensures err { OnErr result (read_faults self.new ≡ counted (read_faults self.old)) }
    {
        match self.reader.read(buf) {
            Ok(count) => Ok(count),
            Err(_) => {
                self.faults = self.faults.saturating_add(1);
                Err(Failed)
            }
        }
    }
}

/// A sink over a writer, as standard output: `StdSink::new(rt.stdout())`.
///
/// As a sink it tells nothing of the bytes. It has a count of its faults, which each error of the
/// writer raises, up to 2^64 - 1, and so does a write that takes nothing of a piece that isn't
/// empty.
#[derive(Drop)]
pub struct StdSink<W> {
    writer: W,
    faults: u64,
}

impl<W: Write> StdSink<W> {
    /// A sink that hands its bytes to the writer. No fault is counted yet.
    pub fn new(writer: W) -> StdSink<W>
        ensures writer { writer_of result ≡ writer }
        ensures faults { write_faults result ≡ 0 }
    {
        StdSink { writer, faults: 0 }
    }
}

impl<W: Write> Sink for StdSink<W> {
    ghost held = { λ _. None };

    ghost faults = { λ sink. sink.faults };

    fn write(&mut self, piece: &[u8]) -> Result<usize, Failed>
        ensures bound { IfOk result (λ count. count ≤ length piece.now) }
        ensures some { IfOk result (λ count. 0 < length piece.now → 0 < count) }
        ensures cause { HasCause (write_faults self.old) (write_faults self.new) result }

        // What the writer itself tells of its bytes holds of this write.
        ensures writer { WriteAppends (W.contents (writer_of self.old)) (W.contents (writer_of self.new))
            result piece.now }
        ensures ok { OnOk result (write_faults self.new ≡ write_faults self.old) }
        ensures err { OnErr result (write_faults self.new ≡ counted (write_faults self.old)) }
    {
        match self.writer.write(piece) {
            Ok(count) if 0 < count || piece.is_empty() => Ok(count),
            _ => {
                self.faults = self.faults.saturating_add(1);
                Err(Failed)
            }
        }
    }
}
