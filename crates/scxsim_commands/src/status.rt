/// A command that did all.
pub const DONE: u8 = 0;

/// An input that was refused.
pub const REFUSED: u8 = 1;

/// Words that name no command, and a request for help.
pub const USAGE: u8 = 2;

/// Reading a file failed, or writing the output did.
pub const FAILED: u8 = 3;
