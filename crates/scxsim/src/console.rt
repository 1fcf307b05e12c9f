use scxsim_commands::{FILE_LIMIT, STANDARD_INPUT, read_file};
use std::io::{IsTerminal, Read};
use std::rt::Clock;
use std::{env, io};

/// The program's surroundings, apart from its words and its output.
pub trait Console: Clock + Eprint {
    /// The bytes of the file at a path, or of standard input at `-`, or as many of them as show that there are too
    /// many.
    ///
    /// # Errors
    ///
    /// Memory ran out, or the file could not be opened or read.
    fn read(&self, path: &str) -> io::Result<Vec<u8>>;

    /// True if standard error is a terminal.
    fn shows_errors(&self) -> bool;

    /// True if standard output is one.
    fn shows_output(&self) -> bool;

    /// The columns of the terminal, if the environment says them by `COLUMNS`.
    fn columns(&self) -> Option<u64>;
}

impl Console for HostRuntime {
    fn read(&self, path: &str) -> io::Result<Vec<u8>> {
        if path == STANDARD_INPUT {
            read_input(self)
        } else {
            read_file(self, path)
        }
    }

    fn shows_errors(&self) -> bool {
        self.stderr().is_terminal()
    }

    fn shows_output(&self) -> bool {
        self.stdout().is_terminal()
    }

    fn columns(&self) -> Option<u64> {
        let columns = env::var(self, "COLUMNS").ok()?;
        let columns = columns.as_str().parse::<u32>().ok()?;
        Some(u64::from(columns))
    }
}

/// Reads standard input, as `read_file` does a file.
fn read_input<R: AllocGlobal + Input>(rt: &R) -> io::Result<Vec<u8>> {
    let mut bytes = Vec::new(rt.alloc());
    rt.reader()
        .take(FILE_LIMIT as u64 + 1)
        .read_to_end(&mut bytes)?;
    Ok(bytes)
}
