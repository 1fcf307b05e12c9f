ghost use Rattle.std.specs.Prelude.{◌≡◌, [], Some};

use scxsim_output::{Failed, Out};
use std::alloc::Global;

/// A page in memory, as an output. Where memory runs out writing fails.
#[derive(Drop)]
pub(crate) struct Page {
    bytes: Vec<u8>,
    failures: u64,
}

impl Page {
    pub(crate) fn new(alloc: Global) -> Page
        ensures { result.bytes.items ≡ [] }
    {
        Page {
            bytes: Vec::new(alloc),
            failures: 0,
        }
    }

    pub(crate) fn into_bytes(self) -> Vec<u8>
        ensures { result ≡ self.bytes }
    {
        let Page { bytes, .. } = self;
        bytes
    }
}

impl Out for Page {
    ghost contents = { λ p. Some p.bytes.items };

    ghost failure_count = { λ p. p.failures };

    fn write(&mut self, bytes: &[u8]) -> Result<usize, Failed> {
        if self.failures == u64::MAX {
            return Err(Failed);
        }
        match self.bytes.extend_from_slice(bytes) {
            Ok(()) => Ok(bytes.len()),
            Err(_) => {
                self.failures += 1;
                Err(Failed)
            }
        }
    }

    fn failures(&self) -> u64 {
        self.failures
    }
}
