use crate::registers::number;
use crate::scan::Scan;
use crate::wrong::{Why, Wrong};
use scx_asm_text::{Token, helper_name};
use scx_isa_semantics::Helper;

/// The words on a call without a number.
const NUMBER: &str = "a number is wanted: docs/POLICIES.md has those of the helpers";

/// The greatest number of a helper.
const LAST: i32 = 1100;

/// Reads a call, after its word.
pub(crate) fn call<'a>(scan: Scan<'_, 'a>) -> Result<(), Wrong<'a>> {
    if let Some((name, number)) = helper_at(scan) {
        return Err(scan.wrong(Why::Helper(name, number)));
    }
    number(scan, NUMBER)?.end("a call is of a number alone; r1 to r5 are its arguments")
}

/// The name and the number of the helper whose name is the next token.
pub(crate) fn helper_at(scan: Scan<'_, '_>) -> Option<(&'static str, i32)> {
    let Some(Token::Word(_)) = scan.first() else {
        return None;
    };
    helper_named(without_prefix(scan.text()))
}

/// The name without what the kernel's has before it.
fn without_prefix(name: &str) -> &str {
    for prefix in ["scx_bpf_", "bpf_"] {
        if let Some(rest) = name.strip_prefix(prefix) {
            return rest;
        }
    }
    name
}

fn helper_named(name: &str) -> Option<(&'static str, i32)> {
    for number in 0..LAST {
        if let Some(known) = name_of_helper(number)
            && known == name
        {
            return Some((known, number));
        }
    }
    None
}

/// The name of the helper of that number, if there is one.
fn name_of_helper(number: i32) -> Option<&'static str> {
    Some(helper_name(Helper::new(number)?))
}
