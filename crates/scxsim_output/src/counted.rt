use crate::out::{Failed, Out};
use std::alloc::Allocator;
use std::io::{BufWriter, Write};

/// One of std's writers as an output, with its failures counted.
#[derive(Drop)]
pub struct Counted<W> {
    writer: W,
    failures: u64,
}

impl<W: Write> Counted<W> {
    ghost use Rattle.std.specs.Prelude.{◌≡◌};

    pub fn new(writer: W) -> Self
        ensures writer { result.writer ≡ writer }
        ensures failures { result.failures ≡ 0 }
    {
        Counted {
            writer,
            failures: 0,
        }
    }
}

impl<W: Write + Drop, A: Allocator> Counted<BufWriter<W, A>> {
    ghost use Rattle.std.specs.Prelude.{◌≡◌, [], OnOk};
    ghost use Rattle.std.specs.Io.KnownBytes.{Keeps};
    ghost use Rattle.std.specs.Io.Buffered.{writer_buffer, writer_contents};
    ghost use Rattle.scxsim_output.specs.Output.{Counts};

    /// Has the writer hand on what it holds back. Where it does, nothing is held back any more.
    ///
    /// # Errors
    ///
    /// The writer failed, which counts as one failure.
    pub fn flush(&mut self) -> Result<(), Failed>
        ensures contents { Keeps (writer_contents W.contents self.old.writer)
            (writer_contents W.contents self.new.writer) }
        ensures emptied { OnOk result (writer_buffer self.new.writer ≡ []) }
        ensures failures { Counts result self.old.failures self.new.failures }
    {
        match self.writer.flush() {
            Ok(()) => Ok(()),
            Err(_) => {
                self.failures = self.failures.saturating_add(1);
                Err(Failed)
            }
        }
    }
}

impl<W: Write> Out for Counted<W> {
    ghost contents = { λ out. W.contents out.writer };

    ghost failure_count = { λ out. out.failures };

    fn write(&mut self, bytes: &[u8]) -> Result<usize, Failed> {
        if self.failures == u64::MAX {
            return Err(Failed);
        }
        match self.writer.write(bytes) {
            Ok(count) => {
                if count == 0 && !bytes.is_empty() {
                    self.failures += 1;
                }
                Ok(count)
            }
            Err(_) => {
                self.failures += 1;
                Err(Failed)
            }
        }
    }

    fn failures(&self) -> u64 {
        self.failures
    }
}
