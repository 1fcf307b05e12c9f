ghost use Rattle.std.specs.Prelude.{◌≡◌, true};
ghost use Rattle.toml_parser.specs.Strings.{starts_string};

use crate::places::lines::place_of_line;
use crate::places::place::Place;
use crate::places::search::find;
use scx_asm_text::{Item, Statement, Token, item_of, tokens};
use std::alloc::Global;
use toml_parser::{quoted, starts_string};

/// The place of the line of assembler text whose instruction takes a slot. The text is the value of the key at that
/// path; none where there is no such text.
pub fn place_of_slot(alloc: Global, text: &str, path: &str, slot: usize) -> Option<Place> {
    let code = text_at(alloc, text, path)?;
    let line = line_of_slot(alloc, &code, slot);
    drop(code);
    place_of_line(alloc, text, path, line?)
}

/// The text that is the value of the key at that path. None where there is no such text.
pub fn text_at(alloc: Global, text: &str, path: &str) -> Option<String> {
    string_of(alloc, find(alloc, text, path)?.value_at(path)?)
}

fn string_of(alloc: Global, value: &str) -> Option<String> {
    if !starts_string(value) {
        return None;
    }
    let (string, _rest) = quoted(alloc, value).ok()?;
    Some(string)
}

/// The line, from 1, whose instruction takes that slot.
fn line_of_slot(alloc: Global, code: &str, slot: usize) -> Option<usize> {
    let mut slots = 0usize;
    for (number, line) in code.lines().enumerate() {
        slots = slots.saturating_add(slots_of(alloc, line)?);
        if slot < slots {
            return Some(number.saturating_add(1));
        }
    }
    None
}

/// The number of slots of the line's instruction; 0 where it has none.
fn slots_of(alloc: Global, line: &str) -> Option<usize> {
    let mut found = Vec::new(alloc);
    let slots = match tokens(line.as_bytes(), &mut found) {
        Ok(true) => slots_in(&found),
        Ok(false) | Err(_) => None,
    };
    drop(found);
    slots
}

/// The number of slots of the instruction that the tokens of a line are; 0 where they are none.
fn slots_in(tokens: &[Token<'_>]) -> Option<usize> {
    match item_of(tokens)? {
        Item::Blank | Item::Label(_) => Some(0),
        Item::Statement(Statement::LoadImmediate { .. } | Statement::LoadMapReference { .. }) => {
            Some(2)
        }
        Item::Statement(_) | Item::Jump(_, _) => Some(1),
    }
}
