ghost use Rattle.std.specs.Prelude.{◌≡◌, ◌<◌, false, IfOk, OnOk, ◌++◌, string_bytes};
ghost use Rattle.std.specs.Fmt.{digit_glyph};
ghost use Rattle.std.specs.List.{list_any};
ghost use Rattle.scx_load_files.specs.Keys.{is_control, control_escape, character, escape, basic_content, basic_string, key_text};
ghost use Rattle.scx_load_files.specs.Paths.{below};

use crate::path::key_path;
use std::alloc::{AllocError, Global};

/// The path of an unknown key in the table at `path`. A key with a control character in it is shown as
/// a basic string of TOML, so that a path is one line.
pub(crate) fn shown_path(alloc: Global, path: &str, key: &str) -> Result<String, AllocError>
    ensures { IfOk result (λ joined. string_bytes joined ≡ below path.now (key_text key.now)) }
{
    if !has_control(key.as_bytes()) {
        return key_path(alloc, path, key);
    }
    let text = basic_string(alloc, key)?;
    key_path(alloc, path, &text)
}

fn has_control(bytes: &[u8]) -> bool
    ensures { result ≡ list_any is_control bytes.now }
{
    bytes.iter().any(|byte| is_control(*byte))
}

fn is_control(byte: u8) -> bool
    ensures { result ≡ is_control byte }
{
    byte < 32 || byte == 127
}

fn basic_string(alloc: Global, text: &str) -> Result<String, AllocError>
    ensures { IfOk result (λ found. string_bytes found ≡ basic_string text.now) }
{
    let content = basic_content(alloc, text)?;
    let mut found = String::from_str(alloc, "\"")?;
    found.push_str(&content)?;
    found.push_str("\"")?;
    Ok(found)
}

fn basic_content(alloc: Global, text: &str) -> Result<String, AllocError>
    ensures { IfOk result (λ found. string_bytes found ≡ basic_content text.now) }
{
    let mut found = String::new(alloc);
    for c in text.chars() {
        push_escaped(&mut found, c)?;
    }
    Ok(found)
}

fn push_escaped(text: &mut String, c: char) -> Result<(), AllocError>
    ensures { OnOk result (string_bytes text.new ≡ string_bytes text.old ++ escape c) }
{
    match c {
        '\u{8}' => text.push_str("\\b"),
        '\t' => text.push_str("\\t"),
        '\n' => text.push_str("\\n"),
        '\u{c}' => text.push_str("\\f"),
        '\r' => text.push_str("\\r"),
        '"' => text.push_str("\\\""),
        '\\' => text.push_str("\\\\"),
        _ => push_character(text, c),
    }
}

fn push_character(text: &mut String, c: char) -> Result<(), AllocError>
    ensures { OnOk result (string_bytes text.new ≡ string_bytes text.old ++ character c) }
{
    let code = u32::from(c);
    if code < 32 || code == 127 {
        return push_control(text, code as u8);
    }
    text.push(c)
}

fn push_control(text: &mut String, byte: u8) -> Result<(), AllocError>
    ensures { OnOk result (string_bytes text.new ≡ string_bytes text.old ++ control_escape byte) }
{
    text.push_str("\\u00")?;
    text.push(hex_digit(byte / 16))?;
    text.push(hex_digit(byte % 16))
}

fn hex_digit(digit: u8) -> char
    requires { digit < 16 }
    ensures value { result ≡ digit_glyph false digit }
    ensures ascii { result < 128 }
{
    char::from(if digit < 10 {
        b'0' + digit
    } else {
        b'a' - 10 + digit
    })
}
