use std::alloc::Global;
use std::io;
use std::io::{ErrorKind, Write};

/// The limits of a writer: it takes at most `most` bytes a call, until it fails at the call `fails_at`, counted from
/// 0: by an error, or by taking nothing.
#[derive(Clone, Copy)]
pub(crate) struct Limits {
    pub(crate) most: usize,
    pub(crate) fails_at: usize,
    pub(crate) has_error: bool,
}

impl Limits {
    /// It never fails.
    pub(crate) fn taking(most: usize) -> Limits {
        Limits::failing(most, usize::MAX)
    }

    /// It fails by an error.
    pub(crate) fn failing(most: usize, fails_at: usize) -> Limits {
        Limits {
            most,
            fails_at,
            has_error: true,
        }
    }
}

/// A writer over memory.
#[derive(Drop)]
pub(crate) struct Memory {
    pub(crate) bytes: Vec<u8>,
    /// The number of calls so far.
    pub(crate) calls: usize,
    limits: Limits,
}

impl Memory {
    /// It takes all that it is given.
    pub(crate) fn new(alloc: Global) -> Self {
        Memory::by(alloc, Limits::taking(usize::MAX))
    }

    pub(crate) fn by(alloc: Global, limits: Limits) -> Self {
        Memory {
            bytes: Vec::new(alloc),
            calls: 0,
            limits,
        }
    }
}

impl Write for Memory {
    fn write(&mut self, buf: &[u8]) -> io::Result<usize> {
        let call = self.calls;
        self.calls = call.saturating_add(1);
        if call == self.limits.fails_at {
            return if self.limits.has_error {
                Err(io::Error::from(ErrorKind::Other))
            } else {
                Ok(0)
            };
        }
        let count = buf.len().min(self.limits.most);
        self.bytes.extend_from_slice(&buf[..count])?;
        Ok(count)
    }

    fn flush(&mut self) -> io::Result<()> {
        Ok(())
    }
}
