ghost use Rattle.std.specs.Prelude.{◌≤◌};

use crate::counted::Counted;
use crate::out::{Failed, Out, write_front};
use crate::short::{SHORT, Short};
use std::alloc::Allocator;
use std::io::{BufWriter, Write};

/// The most bytes of short texts that are held back, in a field of the writer's own.
const BLOCK: usize = 4096;

/// An output that is handed short texts by the block, and all else at once.
#[derive(Drop)]
pub struct Blocks<W> {
    out: W,
    block: [u8; BLOCK],
    end: usize,
    ghost room: { end ≤ 4096 },
}

impl<W: Out> Blocks<W> {
    ghost use Rattle.std.specs.Prelude.{◌≡◌, ◌≤◌, [], ◌++◌, take, OnOk};
    ghost use Rattle.std.specs.Io.KnownBytes.{Keeps};
    ghost use Rattle.scxsim_output.specs.Output.{Counts};
    ghost use Rattle.scxsim_output.specs.Held.{held_back, blocks_contents};

    /// Nothing is held back.
    pub fn new(out: W) -> Self
        ensures out { result.out ≡ out }
        ensures nothing { held_back result ≡ [] }
    {
        Blocks {
            out,
            block: [0; BLOCK],
            end: 0,
        }
    }

    /// Hands on what is held back. Where that fails the rest stays.
    #[inline(never)]
    fn spill(&mut self) -> Result<(), Failed>
        ensures contents { Keeps (blocks_contents W.contents self.old)
            (blocks_contents W.contents self.new) }
        ensures emptied { OnOk result (self.new.end ≡ 0) }
        ensures failures { Counts result (W.failure_count self.old.out)
            (W.failure_count self.new.out) }
    {
        let (count, result) = write_front(&mut self.out, &self.block[..self.end]);
        self.block.copy_within(count..self.end, 0);
        self.end -= count;
        result
    }

    /// Hands on what is held back, if anything is.
    #[inline(always)]
    fn hand_on(&mut self) -> Result<(), Failed>
        ensures contents { Keeps (blocks_contents W.contents self.old)
            (blocks_contents W.contents self.new) }
        ensures emptied { OnOk result (self.new.end ≡ 0) }
        ensures failures { Counts result (W.failure_count self.old.out)
            (W.failure_count self.new.out) }
    {
        if self.end > 0 { self.spill() } else { Ok(()) }
    }

    /// There is room for a short text then.
    #[inline(always)]
    fn make_room(&mut self) -> Result<(), Failed>
        ensures contents { Keeps (blocks_contents W.contents self.old)
            (blocks_contents W.contents self.new) }
        ensures room { OnOk result (self.new.end ≤ 4016) }
        ensures failures { Counts result (W.failure_count self.old.out)
            (W.failure_count self.new.out) }
    {
        if self.end > BLOCK - SHORT {
            self.spill()
        } else {
            Ok(())
        }
    }

    /// Holds back the first `count` bytes of a short text.
    #[inline(always)]
    #[tactic(auto, using(crate::proofs::Shorts::with_text))]
    fn hold(&mut self, text: &[u8; SHORT], count: usize)
        requires room { self.old.end ≤ 4016 }
        requires count { count ≤ 80 }
        ensures held { held_back self.new ≡ held_back self.old ++ take count text.now }
        ensures out { self.new.out ≡ self.old.out }
    {
        let end = self.end;
        self.block[end..end + SHORT].copy_from_slice(text);
        self.end = end + count;
    }
}

impl<W: Write + Drop, A: Allocator> Blocks<Counted<BufWriter<W, A>>> {
    ghost use Rattle.std.specs.Prelude.{◌≡◌, [], OnOk};
    ghost use Rattle.std.specs.Io.KnownBytes.{Keeps};
    ghost use Rattle.std.specs.Io.Buffered.{writer_buffer, writer_contents};
    ghost use Rattle.scxsim_output.specs.Output.{Counts};
    ghost use Rattle.scxsim_output.specs.Held.{held_back, blocks_contents};

    /// Hands on all that is held back, here and by the writer.
    ///
    /// # Errors
    ///
    /// The writer failed, which counts as one failure.
    pub fn flush(&mut self) -> Result<(), Failed>
        ensures contents { Keeps
            (blocks_contents (λ w. writer_contents W.contents w.writer) self.old)
            (blocks_contents (λ w. writer_contents W.contents w.writer) self.new) }
        ensures emptied { OnOk result (held_back self.new ≡ []) }
        ensures writer_emptied { OnOk result (writer_buffer self.new.out.writer ≡ []) }
        ensures failures { Counts result self.old.out.failures self.new.out.failures }
    {
        self.spill()?;
        self.out.flush()
    }
}

impl<W: Out> Out for Blocks<W> {
    ghost use Rattle.scxsim_output.specs.Held.{blocks_contents};

    ghost contents = { blocks_contents W.contents };

    ghost failure_count = { λ b. W.failure_count b.out };

    fn write(&mut self, bytes: &[u8]) -> Result<usize, Failed> {
        self.hand_on()?;
        self.out.write(bytes)
    }

    fn failures(&self) -> u64 {
        self.out.failures()
    }

    #[inline(always)]
    fn write_short(&mut self, text: &[u8; SHORT], count: usize) -> Result<(), Failed> {
        self.make_room()?;
        self.hold(text, count);
        Ok(())
    }

    #[inline(always)]
    fn hold_text<T: Short>(&mut self, text: &T) -> bool {
        let has_room = self.end <= BLOCK - SHORT;
        if has_room {
            self.end = text.put(&mut self.block, self.end);
        }
        has_room
    }
}
