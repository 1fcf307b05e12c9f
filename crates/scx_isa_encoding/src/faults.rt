ghost use Rattle.std.specs.Prelude.{◌≡◌};
ghost use Rattle.scx_isa_encoding.specs.Faults.{exclusion_name, decode_number, decode_name};

/// An instruction that is left out of what this host reads, by its name: atomic operations, legacy
/// packet loads, calls and 64-bit immediates that need a loader (RFC 9669, sections 4.3 and 5).
#[derive(Clone, Copy, Debug, PartialEq, Eq)]
pub enum Exclusion {
    /// An atomic operation on 32 bits of memory.
    Atomic32,
    /// An atomic operation on 64 bits of memory.
    Atomic64,
    /// A legacy load from a packet.
    Packet,
    /// A call of a function in the program itself.
    LocalCall,
    /// A call of a helper by its BTF id.
    BtfCall,
    /// A 64-bit immediate that names a map by its file descriptor.
    MapByFd,
    /// A 64-bit immediate that names an address in a map's value by a file descriptor.
    MapValueByFd,
    /// A 64-bit immediate that names the address of a variable of the platform.
    VariableAddress,
    /// A 64-bit immediate that names the address of an instruction.
    CodeAddress,
    /// A 64-bit immediate that names an address in a map's value by the map's index.
    MapValueByIndex,
}

/// The faults of bytes that encode no program, in the order of their numbers.
///
/// The checks come in another order: first the length, as `Empty`, `NotWholeSlots` and `TooLong`;
/// then in each instruction the opcode, `BadRegister`, `BadOffset`, `BadWidth`, `UnusedField` and
/// `HalfWide`.
#[derive(Clone, Copy, Debug, PartialEq, Eq)]
pub enum DecodeFault {
    /// There is no byte.
    Empty,
    /// There are more than 4096 slots.
    TooLong,
    /// The bytes end within a slot.
    NotWholeSlots,
    /// No instruction has this opcode, or none with this source field.
    UnknownOpcode,
    /// RFC 9669 has the instruction, but it is left out here.
    NotInProfile(Exclusion),
    /// A register that is used is above 10.
    BadRegister,
    /// A field that the instruction doesn't use isn't 0.
    UnusedField,
    /// The second slot of a wide instruction is missing.
    HalfWide,
    /// The offset of a move or a division isn't one that RFC 9669 lists.
    BadOffset,
    /// The width of a byte swap isn't 16, 32 or 64.
    BadWidth,
}

impl DecodeFault {
    /// Its number in a refusal, from 1.
    pub fn number(self) -> u8
        ensures { result ≡ decode_number self }
    {
        match self {
            DecodeFault::Empty => 1,
            DecodeFault::TooLong => 2,
            DecodeFault::NotWholeSlots => 3,
            DecodeFault::UnknownOpcode => 4,
            DecodeFault::NotInProfile(_) => 5,
            DecodeFault::BadRegister => 6,
            DecodeFault::UnusedField => 7,
            DecodeFault::HalfWide => 8,
            DecodeFault::BadOffset => 9,
            DecodeFault::BadWidth => 10,
        }
    }

    /// Its name in a refusal, as `HalfWide`; for `NotInProfile` with what is left out, as
    /// `NotInProfile(packet)`.
    pub fn name(self) -> &'static str
        ensures { result.now ≡ decode_name self }
    {
        match self {
            DecodeFault::Empty => "Empty",
            DecodeFault::TooLong => "TooLong",
            DecodeFault::NotWholeSlots => "NotWholeSlots",
            DecodeFault::UnknownOpcode => "UnknownOpcode",
            DecodeFault::NotInProfile(exclusion) => exclusion.name(),
            DecodeFault::BadRegister => "BadRegister",
            DecodeFault::UnusedField => "UnusedField",
            DecodeFault::HalfWide => "HalfWide",
            DecodeFault::BadOffset => "BadOffset",
            DecodeFault::BadWidth => "BadWidth",
        }
    }
}

impl Exclusion {
    /// The fault's name with this exclusion in it.
    fn name(self) -> &'static str
        ensures { result.now ≡ exclusion_name self }
    {
        match self {
            Exclusion::Atomic32 => "NotInProfile(atomic32)",
            Exclusion::Atomic64 => "NotInProfile(atomic64)",
            Exclusion::Packet => "NotInProfile(packet)",
            Exclusion::LocalCall => "NotInProfile(local call)",
            Exclusion::BtfCall => "NotInProfile(BTF call)",
            Exclusion::MapByFd => "NotInProfile(map by fd)",
            Exclusion::MapValueByFd => "NotInProfile(map value by fd)",
            Exclusion::VariableAddress => "NotInProfile(variable address)",
            Exclusion::CodeAddress => "NotInProfile(code address)",
            Exclusion::MapValueByIndex => "NotInProfile(map value by index)",
        }
    }
}
