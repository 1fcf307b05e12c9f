ghost use Rattle.std.specs.Prelude.{◌≡◌, codes, IfOk};
ghost use Rattle.toml.specs.View.{view, table_view};
ghost use Rattle.scx_load_files.specs.Faults.{Gives};
ghost use Rattle.scx_load_files.specs.Paths.{below};
ghost use Rattle.hex.specs.Hex.{decode_of};
ghost use Rattle.scx_asm.specs.Reading.{read_text};
ghost use Rattle.scx_load_policies.specs.Programs.{code_at, with_code, from_assembly, is_blank, without_blanks, program_of_hex, slots_at, with_slots, from_hex};

use crate::policy_text::Programs;
use hex::FromHexError;
use scx_asm::{AsmError, assemble};
use scx_isa::{CALLBACKS, Callback, DecodeError, Program, decode};
use scx_load_files::{Cause, LoadError, Section, refused};
use std::alloc::{AllocError, Global};

/// Puts the programs that the texts of the table `code` spell into their places, and none into the others.
pub(crate) fn put_code(
    alloc: Global,
    code: Section<'_>,
    programs: &mut Programs,
) -> Result<(), LoadError>
    requires { code.path.now ≡ codes "code" }
    ensures { Gives (λ _. programs.new) result
        (with_code (table_view code.entry.table.now) programs.old) }
{
    for callback in CALLBACKS {
        let program = code_at(alloc, code, callback)?;
        programs.set(callback, program);
    }
    Ok(())
}

/// Adds the programs whose slots the table `slots` spells.
pub(crate) fn put_slots(
    alloc: Global,
    slots: Section<'_>,
    programs: &mut Programs,
) -> Result<(), LoadError>
    requires { slots.path.now ≡ codes "slots" }
    ensures { Gives (λ _. programs.new) result
        (with_slots (table_view slots.entry.table.now) programs.old) }
{
    for callback in CALLBACKS {
        let before = programs.take(callback);
        let program = slots_at(alloc, slots, callback, before)?;
        programs.set(callback, program);
    }
    Ok(())
}

/// The program at the key of a callback in `code`.
fn code_at(
    alloc: Global,
    code: Section<'_>,
    callback: Callback,
) -> Result<Option<Program>, LoadError>
    requires { code.path.now ≡ codes "code" }
    ensures { Gives (λ p. p) result (code_at (table_view code.entry.table.now) callback) }
{
    let key = callback.name();
    let Some(value) = code.value(key) else {
        return Ok(None);
    };
    let text = code.text_in(alloc, key, value)?;
    assembled(alloc, code.path, key, text)
}

/// The program of an assembler text.
fn assembled(alloc: Global, path: &str, key: &str, text: &str) -> Result<Option<Program>, LoadError>
    ensures { Gives (λ p. p) result
        (from_assembly (below path.now key.now) (read_text text.now)) }
{
    match assemble(alloc, text) {
        Ok(program) => Ok(Some(program)),
        Err(AsmError::Refused { fault, line }) => {
            refused(alloc, path, key, Cause::Asm { fault, line })
        }
        Err(AsmError::OutOfMemory) => Err(LoadError::NoMemory),
    }
}

/// The program at the key of a callback in `slots`, if there is such a key, else the one before; not where
/// `code` has one too.
fn slots_at(
    alloc: Global,
    slots: Section<'_>,
    callback: Callback,
    before: Option<Program>,
) -> Result<Option<Program>, LoadError>
    requires { slots.path.now ≡ codes "slots" }
    ensures { Gives (λ p. p) result
        (slots_at (table_view slots.entry.table.now) callback before) }
{
    let key = callback.name();
    let Some(value) = slots.value(key) else {
        return Ok(before);
    };
    if before.is_some() {
        return refused(alloc, slots.path, key, Cause::Twice);
    }
    let text = slots.text_in(alloc, key, value)?;
    spelled(alloc, slots.path, key, text)
}

/// The program whose slots the text spells in pairs of hexadecimal digits.
fn spelled(alloc: Global, path: &str, key: &str, text: &str) -> Result<Option<Program>, LoadError>
    ensures { Gives (λ p. p) result (program_of_hex (below path.now key.now) text.now) }
{
    let bytes = bytes_in(alloc, path, key, text)?;
    match decode(alloc, &bytes) {
        Ok(program) => Ok(Some(program)),
        Err(DecodeError::Refused { fault, slot }) => {
            refused(alloc, path, key, Cause::Decode { fault, slot })
        }
        Err(DecodeError::OutOfMemory) => Err(LoadError::NoMemory),
    }
}

fn bytes_in(alloc: Global, path: &str, key: &str, text: &str) -> Result<Vec<u8>, LoadError>
    ensures { Gives (λ bytes. bytes.items) result
        (from_hex (below path.now key.now) (decode_of (without_blanks text.now))) }
{
    let digits = without_blanks(alloc, text)?;
    match hex::decode(alloc, &digits) {
        Ok(bytes) => Ok(bytes),
        Err(FromHexError::OutOfMemory) => Err(LoadError::NoMemory),
        Err(_) => refused(alloc, path, key, Cause::BadHex),
    }
}

/// The text without its spaces, tabs, carriage returns and line feeds.
fn without_blanks(alloc: Global, text: &str) -> Result<Vec<u8>, AllocError>
    ensures { IfOk result (λ bytes. bytes.items ≡ without_blanks text.now) }
{
    let mut bytes = Vec::with_capacity(alloc, text.len())?;
    for byte in text.as_bytes() {
        if !is_blank(*byte) {
            bytes.push(*byte)?;
        }
    }
    Ok(bytes)
}

fn is_blank(byte: u8) -> bool
    ensures { result ≡ is_blank byte }
{
    byte == b' ' || byte == b'\t' || byte == b'\n' || byte == b'\r'
}
