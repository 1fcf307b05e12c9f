ghost use Rattle.std.specs.Prelude.{◌≡◌, ◌<◌};
ghost use Rattle.scx_isa_semantics.specs.Registers.{number, register_at};

/// The number of registers, r0 to r10 (RFC 9669, section 3.1).
pub const REGISTERS: usize = 11;

/// A register (RFC 9669, section 3.1). r10 is the frame pointer, which no instruction may write
/// (abi.rst of the kernel's BPF documents).
#[derive(Clone, Copy, PartialEq, Eq)]
pub enum Register {
    R0,
    R1,
    R2,
    R3,
    R4,
    R5,
    R6,
    R7,
    R8,
    R9,
    R10,
}

impl Register {
    /// The register of that number, or `None` above 10.
    pub fn new(number: u8) -> Option<Register>
        ensures { result ≡ register_at number }
    {
        match number {
            0 => Some(Register::R0),
            1 => Some(Register::R1),
            2 => Some(Register::R2),
            3 => Some(Register::R3),
            4 => Some(Register::R4),
            5 => Some(Register::R5),
            6 => Some(Register::R6),
            7 => Some(Register::R7),
            8 => Some(Register::R8),
            9 => Some(Register::R9),
            10 => Some(Register::R10),
            _ => None,
        }
    }

    /// Its number, 0 to 10.
    pub fn number(self) -> u8
        ensures number { result ≡ number self }
        ensures in_range { result < 11 }
    {
        self as u8
    }
}
