ghost use Rattle.std.specs.Prelude.{◌≡◌};
ghost use Rattle.scx_abs.specs.Faults.{why_number, why_name};

/// Why an instruction is refused.
#[derive(Clone, Copy, Debug, PartialEq, Eq)]
pub enum Why {
    /// A register is read whose value isn't known to be there.
    UnusableRegister,
    /// r10 is written.
    WritesFrame,
    /// Bytes of the stack are read that weren't all written as numbers.
    UnwrittenStack,
    /// An access lies outside its memory, or no memory is meant.
    OutOfBounds,
    /// An offset isn't a multiple of the bytes that are read or written.
    Misaligned,
    /// A pointer that may be null is used before it was tested.
    NullNotTested,
    /// A pointer is in arithmetic that neither copies it whole nor moves it.
    PointerArithmetic,
    /// A pointer is in a comparison that is no 64-bit test of it for 0.
    PointerCompare,
    /// A pointer is stored elsewhere than in eight bytes of the stack.
    PointerStore,
    /// No field of a task is meant, or not one that may be written.
    TaskField,
    /// The number that is called is no helper's.
    UnknownHelper,
    /// The helper may not be called in this callback.
    HelperNotHere,
    /// An argument isn't of the kind that the helper takes.
    BadArgument,
    /// A callback that answers a number ends with something else in r0.
    BadReturn,
    /// The number in a map reference load is no map's.
    UnknownMap,
}

impl Why {
    /// Its number in a refusal, 5 to 19.
    pub fn number(self) -> u8
        ensures { result ≡ why_number self }
    {
        match self {
            Why::UnusableRegister => 5,
            Why::WritesFrame => 6,
            Why::UnwrittenStack => 7,
            Why::OutOfBounds => 8,
            Why::Misaligned => 9,
            Why::NullNotTested => 10,
            Why::PointerArithmetic => 11,
            Why::PointerCompare => 12,
            Why::PointerStore => 13,
            Why::TaskField => 14,
            Why::UnknownHelper => 15,
            Why::HelperNotHere => 16,
            Why::BadArgument => 17,
            Why::BadReturn => 18,
            Why::UnknownMap => 19,
        }
    }

    /// Its name in a refusal.
    pub fn name(self) -> &'static str
        ensures { result.now ≡ why_name self }
    {
        match self {
            Why::UnusableRegister => "UnusableRegister",
            Why::WritesFrame => "WritesFrame",
            Why::UnwrittenStack => "UnwrittenStack",
            Why::OutOfBounds => "OutOfBounds",
            Why::Misaligned => "Misaligned",
            Why::NullNotTested => "NullNotTested",
            Why::PointerArithmetic => "PointerArithmetic",
            Why::PointerCompare => "PointerCompare",
            Why::PointerStore => "PointerStore",
            Why::TaskField => "TaskField",
            Why::UnknownHelper => "UnknownHelper",
            Why::HelperNotHere => "HelperNotHere",
            Why::BadArgument => "BadArgument",
            Why::BadReturn => "BadReturn",
            Why::UnknownMap => "UnknownMap",
        }
    }
}
