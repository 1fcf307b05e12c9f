ghost use Rattle.std.specs.Prelude.{◌≡◌};
ghost use Rattle.scx_load_files.specs.declared.fault.LoadError.TheVariants.{NoMemory};
ghost use Rattle.scx_load_files.specs.Faults.{Gives, refusal};
ghost use Rattle.scx_load_files.specs.Paths.{below};

use crate::event_fault::EventFault;
use crate::path::key_path;
use scx_asm::AsmFault;
use scx_isa_encoding::DecodeFault;
use std::alloc::{AllocError, AllocFailed, Global};
use std::fmt;
use thiserror::Error;

/// The cause of a file's first fault.
#[derive(Clone, Copy, Debug, PartialEq, Eq)]
pub enum Cause {
    /// The file is no TOML document; its path is `file`.
    NotToml,
    /// The format has no such key.
    Unknown,
    /// The format asks for this key.
    Missing,
    /// The value is of another type than the format asks for.
    WrongType,
    /// A number is outside its limits.
    OutOfRange,
    /// A name isn't 1 to 16 of `a` to `z`, `0` to `9` and `_` with a letter first.
    BadName,
    /// A name or an entry that may occur once occurred before.
    Twice,
    /// An array has more elements than it may have.
    TooMany,
    /// No group has this name, or none before it.
    NoSuchGroup,
    /// No task has this name.
    NoSuchTask,
    /// The group has groups below it, and so no tasks.
    NotALeaf,
    /// The group lies more than three levels below the root.
    TooDeep,
    /// The text isn't pairs of hexadecimal digits.
    BadHex,
    /// The text doesn't assemble: the fault and its line, from 1.
    Asm { fault: AsmFault, line: usize },
    /// The bytes don't decode: the fault and its slot.
    Decode { fault: DecodeFault, slot: usize },
    /// The line of that number, from 1, is no event, or can't come there.
    Event { fault: EventFault, line: usize },
}

impl fmt::Display for Cause {
    fn fmt<W: fmt::Write>(&self, f: &mut fmt::Formatter<W>) -> fmt::Result {
        match *self {
            Cause::Asm { fault, line } => self.write_fault(f, fault.number(), fault.name(), line),
            Cause::Decode { fault, slot } => {
                self.write_fault(f, fault.number(), fault.name(), slot)
            }
            Cause::Event { fault, line } => {
                self.write_fault(f, fault.number(), fault.name(), line)
            }
            _ => f.write_str(self.words()),
        }
    }
}

impl Cause {
    /// Writes a fault within a text, by its number, its name and its place.
    fn write_fault<W: fmt::Write>(
        &self,
        f: &mut fmt::Formatter<W>,
        number: u8,
        name: &str,
        place: usize,
    ) -> fmt::Result {
        write!(f, "{} {number} {name} at {place}", self.words())
    }

    /// The words of a refusal; for a fault within a text, the sort of text.
    fn words(&self) -> &'static str {
        match self {
            Cause::NotToml => "not TOML",
            Cause::Unknown => "unknown",
            Cause::Missing => "missing",
            Cause::WrongType => "wrong type",
            Cause::OutOfRange => "out of range",
            Cause::BadName => "bad name",
            Cause::Twice => "twice",
            Cause::TooMany => "too many",
            Cause::NoSuchGroup => "no such group",
            Cause::NoSuchTask => "no such task",
            Cause::NotALeaf => "not a leaf",
            Cause::TooDeep => "too deep",
            Cause::BadHex => "bad hex",
            Cause::Asm { .. } => "asm",
            Cause::Decode { .. } => "decode",
            Cause::Event { .. } => "event",
        }
    }
}

impl std::error::Error for Cause {}

/// An error of a reading: the first fault of the file with the path of its key, or out of memory.
#[derive(Debug, Drop, Error)]
pub enum LoadError {
    /// Memory ran out.
    #[error("no memory")]
    NoMemory,
    /// The first fault: its path, and its cause.
    #[error("{path}: {cause}")]
    At { path: String, cause: Cause },
}

impl From<AllocError> for LoadError {
    ghost from_gives = { λ _ e. e ≡ NoMemory };

    fn from(_error: AllocError) -> LoadError {
        LoadError::NoMemory
    }
}

impl<T: Drop> From<AllocFailed<T>> for LoadError {
    ghost from_gives = { λ _ e. e ≡ NoMemory };

    fn from(_error: AllocFailed<T>) -> LoadError {
        LoadError::NoMemory
    }
}

/// Refuses a key of the table at `path`, for this cause.
pub fn refused<T: Drop>(alloc: Global, path: &str, key: &str, cause: Cause) -> Result<T, LoadError>
    ensures { Gives (λ t. t) result (refusal (below path.now key.now) cause) }
{
    let path = key_path(alloc, path, key)?;
    Err(LoadError::At { path, cause })
}

/// Refuses the value at this path, for this cause.
pub fn refused_at<T: Drop>(alloc: Global, path: &str, cause: Cause) -> Result<T, LoadError>
    ensures { Gives (λ t. t) result (refusal path.now cause) }
{
    let path = String::from_str(alloc, path)?;
    Err(LoadError::At { path, cause })
}
