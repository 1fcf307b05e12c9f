use crate::calls::{call, helper_at};
use crate::conditions::{condition, target};
use crate::memory::store;
use crate::mnemonics::form_of;
use crate::registers::{Name, name_of};
use crate::scan::Scan;
use crate::values::after_register;
use crate::wrong::{Why, Wrong};
use scx_asm_text::{Symbol, Token};

/// The words on a line of no form.
const BEGINS: &str =
    "a line is a label, or begins with a register, *(, if, goto, gotol, call or exit";

/// Reads a line, up to the first token that fits no form.
pub(crate) fn item<'a>(scan: Scan<'_, 'a>) -> Result<(), Wrong<'a>> {
    match (scan.first(), scan.second()) {
        (None, _) => scan.end(BEGINS),
        (Some(Token::Word(_)), Some(Token::Mark(Symbol::Colon))) => {
            scan.after().after().end("a label is on a line of its own")
        }
        (Some(Token::Word(word)), _) => word_item(scan, word),
        (Some(Token::Mark(Symbol::Star)), _) => store(scan.after()),
        (Some(Token::Number(_, _)), _) => {
            Err(scan.unfit("a line has no slot or bytes before its instruction"))
        }
        (Some(Token::Mark(_)), _) => Err(scan.unfit(BEGINS)),
    }
}

/// Reads a line that begins with a word.
fn word_item<'a>(scan: Scan<'_, 'a>, word: &[u8]) -> Result<(), Wrong<'a>> {
    match name_of(word) {
        Name::Like => Err(scan.unfit(
            "registers are r0 to r10, and w0 to w10 for their low halves",
        )),
        Name::Other => keyword(scan),
        width => after_register(scan.after(), width, scan.text()),
    }
}

/// Reads a line that begins with another word than a register.
fn keyword<'a>(scan: Scan<'_, 'a>) -> Result<(), Wrong<'a>> {
    let rest = scan.after();
    match scan.text() {
        "if" => condition(rest),
        "goto" | "gotol" => target(rest),
        "call" => call(rest),
        "exit" => rest.end("exit is alone on its line; r0 is what is answered"),
        "ret" | "return" | "RET" | "EXIT" => Err(scan.unfit("no such form; exit ends the program")),
        word => Err(scan.wrong(why_of(scan, word))),
    }
}

/// The fault of a line that begins with that word, which begins none.
fn why_of<'a>(scan: Scan<'_, 'a>, word: &str) -> Why<'a> {
    if let Some(form) = form_of(word) {
        return Why::Mnemonic(form);
    }
    if helper_at(scan).is_some() {
        return Why::Words("a helper is called by its number, as call 1001");
    }
    match scan.second() {
        Some(Token::Mark(Symbol::Assign(_))) => {
            Why::Words("registers are r0 to r10, and w0 to w10 for their low halves")
        }
        _ => Why::Words(BEGINS),
    }
}
