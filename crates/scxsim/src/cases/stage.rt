use crate::console::Console;
use std::alloc::Global;
use std::fmt::Display;
use std::io;
use std::io::ErrorKind;
use std::rt::Clock;
use std::time::Duration;

/// A file in memory.
#[derive(Drop)]
pub(crate) struct StagedFile<'a> {
    pub(crate) name: &'a str,
    pub(crate) bytes: Vec<u8>,
}

/// The surroundings of a command: files in memory, of which the last of a name counts, no terminal and no environment,
/// and a clock that stays at one time.
#[derive(Drop)]
pub(crate) struct Stage<'a> {
    pub(crate) alloc: Global,
    pub(crate) files: &'a [StagedFile<'a>],
}

impl Alloc for Stage<'_> {
    type A = Global;

    fn alloc(&self) -> Global {
        self.alloc
    }
}

impl Clock for Stage<'_> {
    fn monotonic(&self) -> io::Result<Duration> {
        Ok(Duration::from_millis(0))
    }

    fn since_1970(&self) -> io::Result<Duration> {
        self.monotonic()
    }
}

impl Eprint for Stage<'_> {
    fn eprint<D: Display + Drop>(&self, _value: D) -> io::Result<()> {
        Ok(())
    }

    fn eprintln<D: Display + Drop>(&self, _value: D) -> io::Result<()> {
        Ok(())
    }
}

impl Console for Stage<'_> {
    fn read(&self, path: &str) -> io::Result<Vec<u8>> {
        for file in self.files.iter().rev() {
            if file.name == path {
                return Ok(Vec::from_slice(self.alloc, file.bytes.as_slice())?);
            }
        }
        Err(io::Error::from(ErrorKind::NotFound))
    }

    fn shows_errors(&self) -> bool {
        false
    }

    fn shows_output(&self) -> bool {
        false
    }

    fn columns(&self) -> Option<u64> {
        None
    }
}
