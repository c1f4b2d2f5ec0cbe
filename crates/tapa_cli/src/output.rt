// Standard output through a buffer, and standard error after what that buffer holds.
ghost use Rattle.std.specs.Prelude.{◌≡◌, ◌≢◌, [], OnOk, OnErr};
ghost use Rattle.std.specs.Io.{WritesAtMost};
ghost use Rattle.std.specs.Io.Buffered.{writer_buffer, writer_contents};
ghost use Rattle.std.specs.Io.KnownBytes.{Keeps, WriteAppends};

use std::alloc::Global;
use std::cell::RefCell;
use std::io::{BufWriter, Error, ErrorKind, Result, Write};

/// How the writes of an output have gone.
#[derive(Clone, Copy, Debug, PartialEq, Eq)]
pub enum Writes {
    /// None has failed.
    Good,
    /// Buffered bytes could not be written, and no call of `write` has returned the error.
    Lost,
    /// A write failed, and its call returned the error.
    Told,
}

/// A writer with a buffer. Once a write has failed nothing more is written, not even the buffered bytes when it is dropped.
pub struct Output<W: Write + Drop> {
    writer: BufWriter<W>,
    writes: Writes,
}

impl<W: Write + Copy + Drop> Output<W> {
    /// A writer with a buffer of `size` bytes, or with none where there is no memory for it.
    pub fn new(alloc: Global, size: usize, inner: W) -> Self
        ensures bytes { writer_contents W.contents result.writer ≡ W.contents inner }
        ensures good { result.writes ≡ Writes.Good }
    {
        let writer = match BufWriter::with_capacity(alloc, size, inner) {
            Ok(writer) => writer,
            Err(_) => {
                let Ok(writer) = BufWriter::with_capacity(alloc, 0, inner) else {
                    unreachable!()
                };
                writer
            }
        };
        Output {
            writer,
            writes: Writes::Good,
        }
    }
}

impl<W: Write + Drop> Write for Output<W> {
    // What the inner writer holds, and what the buffer holds.
    ghost contents = { λ output. writer_contents W.contents output.writer };

    fn write(&mut self, bytes: &[u8]) -> Result<usize>
        ensures bound { WritesAtMost result bytes.now }
        ensures bytes { WriteAppends (writer_contents W.contents self.old.writer) (writer_contents W.contents self.new.writer) result bytes.now }
        ensures good { OnOk result ((self.old.writes ≡ Writes.Good) × (self.new.writes ≡ Writes.Good)) }
        ensures told { OnErr result (self.old.writes ≡ Writes.Good → self.new.writes ≡ Writes.Told) }
    {
        if self.writes != Writes::Good {
            return Err(Error::from(ErrorKind::BrokenPipe));
        }
        let written = self.writer.write(bytes);
        if written.is_err() {
            self.writes = Writes::Told;
        }
        written
    }

    /// Writes the buffered bytes, and fails where they could not be written and no call of `write` has returned the error.
    fn flush(&mut self) -> Result<()>
        ensures bytes { Keeps (writer_contents W.contents self.old.writer) (writer_contents W.contents self.new.writer) }
        ensures whole { OnOk result (self.old.writes ≡ Writes.Good → writer_buffer self.new.writer ≡ []) }
        ensures same { OnOk result ((self.old.writes ≢ Writes.Lost) × (self.new.writes ≡ self.old.writes)) }
        ensures lost { OnErr result ((self.old.writes ≢ Writes.Told) × (self.new.writes ≡ Writes.Lost)) }
    {
        match self.writes {
            Writes::Good => {
                let flushed = self.writer.flush();
                if flushed.is_err() {
                    self.writes = Writes::Lost;
                }
                flushed
            }
            Writes::Lost => Err(Error::from(ErrorKind::BrokenPipe)),
            Writes::Told => Ok(()),
        }
    }
}

impl<W: Write + Drop> Drop for Output<W> {
    fn drop(self) {
        let Output { writer, writes: _ } = self;
        let _ = writer.into_parts();
    }
}

/// Writes the buffered bytes of a shared output, and fails where they could not be written and no call of `write` has returned the error.
pub fn flush<W: Write + Drop>(output: &RefCell<Output<W>>) -> Result<()> {
    match output.try_borrow_mut() {
        Ok(mut output) => output.flush(),
        Err(_) => Err(Error::from(ErrorKind::Other)),
    }
}

/// Where reports are written: a shared output.
#[derive(Drop)]
pub struct OutputWriter<'a, W: Write + Drop> {
    output: &'a RefCell<Output<W>>,
}

impl<'a, W: Write + Drop> OutputWriter<'a, W> {
    /// A writer to this output.
    pub fn new(output: &'a RefCell<Output<W>>) -> Self {
        OutputWriter { output }
    }
}

impl<W: Write + Drop> Write for OutputWriter<'_, W> {
    fn write(&mut self, bytes: &[u8]) -> Result<usize> {
        match self.output.try_borrow_mut() {
            Ok(mut output) => output.write(bytes),
            Err(_) => Err(Error::from(ErrorKind::Other)),
        }
    }

    fn flush(&mut self) -> Result<()> {
        flush(self.output)
    }
}

/// Where messages are written: another writer than that of the output, after all that the output has buffered. Nothing is
/// written where that could not be.
#[derive(Drop)]
pub struct MessageWriter<'a, W: Write + Drop, E> {
    output: &'a RefCell<Output<W>>,
    inner: E,
}

impl<'a, W: Write + Drop, E: Write> MessageWriter<'a, W, E> {
    /// A writer of messages after this output.
    pub fn new(output: &'a RefCell<Output<W>>, inner: E) -> Self {
        MessageWriter { output, inner }
    }
}

impl<W: Write + Drop, E: Write> Write for MessageWriter<'_, W, E> {
    fn write(&mut self, bytes: &[u8]) -> Result<usize> {
        flush(self.output)?;
        self.inner.write(bytes)
    }

    fn flush(&mut self) -> Result<()> {
        flush(self.output)?;
        self.inner.flush()
    }
}
