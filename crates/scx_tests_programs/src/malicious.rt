//! Bytes that aren't meant as a program: callbacks of scx_simple cut short or with a byte changed, and
//! bytes from a fixed generator. Whatever they are, they get an answer, and what is decoded is encoded
//! to the same bytes.

use crate::same::expect_same;
use scx_asm::assemble;
use scx_isa::{Callback, decode, encode, flow};
use scx_maps::{MapDefs, MapKind, Shape};
use scx_tests_examples::{WITHOUT_SELECT_CPU, xorshift};
use scx_verify::verify;
use std::alloc::{AllocError, Global};
use std::process::Abort;
use std::test::Fail;

/// The bytes of a callback.
fn code_of(alloc: Global, text: &str) -> Option<Vec<u8>> {
    let program = assemble(alloc, text).ok()?;
    encode(alloc, &program).ok()
}

/// Takes the bytes through `decode`, `encode`, `flow` and `verify`. The answer is whether they are an
/// accepted program; none where what was decoded isn't encoded to the same bytes.
fn judge(alloc: Global, defs: &MapDefs, bytes: &[u8], callback: Callback) -> Option<bool> {
    let Ok(program) = decode(alloc, bytes) else {
        return Some(false);
    };
    let again = encode(alloc, &program).ok()?;
    if again.as_slice() != bytes {
        return None;
    }
    let flows = flow(&program).is_ok();
    let accepted = verify(alloc, program, callback, defs).is_ok();
    Some(flows && accepted)
}

fn defs<R: Abort>(rt: &R) -> MapDefs {
    let clock = [Shape {
        entries: 1,
        value_size: 8,
        kind: MapKind::Array,
    }];
    MapDefs::new(&clock).expect(rt, "the shapes are within the limits")
}

/// Control falls off each program that is cut short; the whole one is accepted.
fn judge_beginnings<R: AllocGlobal + Abort>(rt: &R, code: &[u8], callback: Callback) {
    let defs = defs(rt);
    for length in 0..=code.len() {
        let accepted = judge(rt.alloc(), &defs, &code[..length], callback);
        expect_same(rt, accepted, Some(length == code.len()), length);
    }
}

fn judge_beginnings_of<R: AllocGlobal + Abort>(rt: &R, callback: Callback, text: &str) {
    let code = code_of(rt.alloc(), text).expect(rt, "the text is a program");
    judge_beginnings(rt, code.as_slice(), callback);
}

#[test]
fn beginnings_are_judged(rt: HostRuntime) {
    for &(callback, text) in &WITHOUT_SELECT_CPU {
        judge_beginnings_of(&rt, callback, text);
    }
}

/// Each program that has another value in one byte gets an answer.
fn change_each_byte<R: AllocGlobal + Abort>(rt: &R, code: &mut [u8], callback: Callback) {
    let defs = defs(rt);
    for place in 0..code.len() {
        let meant = code[place];
        for value in 0..=255u8 {
            code[place] = value;
            let judged = judge(rt.alloc(), &defs, code, callback);
            expect_same(rt, judged.is_some(), true, (place, value));
        }
        code[place] = meant;
    }
}

fn change_each_byte_of<R: AllocGlobal + Abort>(rt: &R, callback: Callback, text: &str) {
    let mut code = code_of(rt.alloc(), text).expect(rt, "the text is a program");
    change_each_byte(rt, code.as_mut_slice(), callback);
}

#[test]
fn changed_bytes_are_judged(rt: HostRuntime) {
    for &(callback, text) in &WITHOUT_SELECT_CPU {
        change_each_byte_of(&rt, callback, text);
    }
}

/// Up to 15 slots and a part of one. Opcodes of the profile come often, and small registers and offsets.
fn bytes_of_walk(alloc: Global, state: &mut u64) -> Result<Vec<u8>, AllocError> {
    let opcodes = [
        0xb7u8, 0xbf, 0x07, 0x0f, 0x7b, 0x79, 0x15, 0x55, 0x05, 0x85, 0x18, 0x95,
    ];
    let mut bytes = Vec::new(alloc);
    let length = xorshift(state) % 124;
    for place in 0..length {
        let number = xorshift(state);
        let byte = match place % 8 {
            _ if number % 16 == 0 => (number >> 32 & 0xff) as u8,
            0 => opcodes[((number >> 16) % 12) as usize],
            1 => ((number >> 16) % 11) as u8,
            2 => ((number >> 16) % 3) as u8,
            _ => 0,
        };
        bytes.push(byte)?;
    }
    Ok(bytes)
}

/// True if the next bytes of the walk get an answer.
fn is_judged(alloc: Global, defs: &MapDefs, state: &mut u64) -> Result<bool, AllocError> {
    let bytes = bytes_of_walk(alloc, state)?;
    let judged = judge(alloc, defs, bytes.as_slice(), Callback::Plain);
    Ok(judged.is_some())
}

#[test]
fn any_bytes_are_judged(rt: HostRuntime) -> Result<(), Fail> {
    let defs = defs(&rt);
    let mut state = 0x9e37_79b9_7f4a_7c15;
    for walk in 0..10_000 {
        expect_same(&rt, is_judged(rt.alloc(), &defs, &mut state)?, true, walk);
    }
    Ok(())
}
