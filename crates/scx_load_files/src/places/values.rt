ghost use Rattle.std.specs.Prelude.{◌≡◌, ◌<◌, ◌≤◌, true, length, slice_index, IfSome};
ghost use Rattle.toml_parser.specs.Strings.{starts_string};

use std::alloc::Global;
use toml_parser::text::{first, skip, skip_blank};
use toml_parser::{quoted, starts_string, unquoted};

/// The text after the value that a text begins with (TOML 1.1, 'Key/Value Pair').
pub(crate) fn behind_value(alloc: Global, text: &str) -> Option<&str>
    ensures { IfSome result (λ rest. length rest.now < length text.now) }
{
    if starts_string(text) {
        return behind_string(alloc, text);
    }
    match first(text) {
        b'[' | b'{' => behind_brackets(alloc, text),
        _ => match unquoted(alloc, text) {
            Ok((_scalar, rest)) => Some(rest),
            Err(_) => None,
        },
    }
}

fn behind_string(alloc: Global, text: &str) -> Option<&str>
    requires { starts_string text.now ≡ true }
    ensures { IfSome result (λ rest. length rest.now < length text.now) }
{
    match quoted(alloc, text) {
        Ok((_string, rest)) => Some(rest),
        Err(_) => None,
    }
}

/// The text after the bracket that closes the first one.
fn behind_brackets(alloc: Global, text: &str) -> Option<&str>
    ensures { IfSome result (λ rest. length rest.now < length text.now) }
{
    let mut depth = 0usize;
    let mut rest = text;
    loop {
        let token = skip_blank(rest, true);
        rest = behind_token(alloc, token)?;
        depth = depth_behind(depth, first(token));
        if depth == 0 {
            return Some(rest);
        }
    }
}

/// The number of brackets that are open after that byte.
fn depth_behind(depth: usize, byte: u8) -> usize {
    match byte {
        b'[' | b'{' => depth.saturating_add(1),
        b']' | b'}' => depth.saturating_sub(1),
        _ => depth,
    }
}

/// The text after a string, or else after one byte of another value.
fn behind_token(alloc: Global, text: &str) -> Option<&str>
    ensures { IfSome result (λ rest. length rest.now < length text.now) }
{
    if starts_string(text) {
        return behind_string(alloc, text);
    }
    match first(text) {
        1..=127 => Some(skip(text, 1)),
        _ => None,
    }
}
