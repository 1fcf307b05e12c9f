use scx_isa_semantics::TaskId;

/// A value that a host gives a program, or is given by it.
#[derive(Clone, Copy, Debug, PartialEq, Eq)]
pub enum Arg {
    /// Nothing, or nothing that a host knows.
    Unset,
    Num(u64),
    Task(TaskId),
}

/// The answer of a helper.
#[derive(Clone, Copy, Debug, PartialEq, Eq)]
pub enum Answer {
    Num(u64),
    Task(TaskId),
}

/// The arguments of a callback, in r1 to r3.
#[derive(Clone, Copy, Debug, PartialEq, Eq)]
pub struct Args {
    pub first: Arg,
    pub second: Arg,
    pub third: Arg,
}

impl Args {
    /// Nothing is given.
    pub const NONE: Args = Args {
        first: Arg::Unset,
        second: Arg::Unset,
        third: Arg::Unset,
    };
}
