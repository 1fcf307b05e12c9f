//! Tests of programs and their bytes, by the public calls of `scx_isa`. Refused slots are in files of cases.

use crate::same::expect_same;
use scx_isa::{Insn, Operand, Operation, Register, Width, decode, encode};
use std::mem::size_of;
use std::process::Abort;
use std::test::Fail;

/// `r0 = 7`, `r1 = -2`, `r0 s%= r1`, `w0 += 1`, `goto +0`, `exit`.
const PROGRAM: [u8; 48] = [
    0xb7, 0, 0, 0, 7, 0, 0, 0, //
    0xb7, 1, 0, 0, 0xfe, 0xff, 0xff, 0xff, //
    0x9f, 0x10, 1, 0, 0, 0, 0, 0, //
    0x04, 0, 0, 0, 1, 0, 0, 0, //
    0x05, 0, 0, 0, 0, 0, 0, 0, //
    0x95, 0, 0, 0, 0, 0, 0, 0,
];

#[test]
fn instructions_are_small(rt: HostRuntime) {
    assert!(rt; size_of::<Insn>() <= 16);
}

/// `r0 s%= r1`
fn is_signed_modulo(insn: Option<Insn>) -> bool {
    matches!(
        insn,
        Some(Insn::Binary(
            Width::Bits64,
            Operation::SignedModulo,
            Register::R0,
            Operand::Register(Register::R1),
        ))
    )
}

#[test]
fn what_is_written_is_read_back(rt: HostRuntime) -> Result<(), Fail> {
    let program = decode(rt.alloc(), &PROGRAM)?;
    expect_same(&rt, program.slots(), 6, "slots");
    expect_same(&rt, program.instructions(), 6, "instructions");
    assert!(rt; is_signed_modulo(program.at(2)));
    assert!(rt; matches!(program.at(4), Some(Insn::Goto(0))));
    assert!(rt; program.at(6).is_none());
    let bytes = encode(rt.alloc(), &program)?;
    expect_same(&rt, bytes.as_slice(), PROGRAM.as_slice(), "bytes");
    Ok(())
}
