use crate::named_text::NamedText;
use scx_asm::AsmFault;
use scx_load_files::{Cause, Place, line_at, place_in_line, place_of_line, text_at};
use scxsim_output::Text;
use scxsim_syntax::{Advice, advice_on};
use std::alloc::Global;

/// A remark on a line of a text for the assembler.
pub(crate) fn remark_on_line(
    alloc: Global,
    file: NamedText<'_>,
    fault: AsmFault,
    line: usize,
) -> Option<String> {
    let mut what = Text::new(alloc);
    what.number("asm ", u64::from(fault.number()));
    what.push(" ");
    what.push(fault.name());
    match advice_on(alloc, file.text, fault, line) {
        Some(advice) => {
            let column = advice.at.saturating_add(1);
            error_with(alloc, file, Some(Place { line, column }), &what, &advice)
        }
        None => file.error_at(alloc, Place { line, column: 1 }, &what).ok(),
    }
}

/// A remark on a line of the assembler text that is the value of the key at a path.
pub(crate) fn remark_on_code(
    alloc: Global,
    file: NamedText<'_>,
    path: &str,
    fault: AsmFault,
    line: usize,
) -> Option<String> {
    let mut what = Text::new(alloc);
    what.push(path);
    what.show(": ", &Cause::Asm { fault, line });
    let code = text_at(alloc, file.text, path)?;
    let advice = advice_on(alloc, &code, fault, line);
    let indent = indent_of(&code, line);
    drop(code);
    match advice {
        Some(advice) => {
            let at = advice.at.saturating_sub(indent);
            let place = place_in_line(alloc, file.text, path, line, at);
            error_with(alloc, file, place, &what, &advice)
        }
        None => {
            let place = place_of_line(alloc, file.text, path, line);
            file.error_below(alloc, place, &what, "").ok()
        }
    }
}

/// The error at a place, and the advice below it.
fn error_with(
    alloc: Global,
    file: NamedText<'_>,
    place: Option<Place>,
    what: &Text,
    advice: &Advice,
) -> Option<String> {
    let mut reason = Text::new(alloc);
    reason.push("      = ");
    reason.push(advice.words.as_str());
    reason.push("\n");
    file.error_below(alloc, place, what, reason.as_str()).ok()
}

/// The number of blanks before the first other character of a line.
fn indent_of(text: &str, line: usize) -> usize {
    let Some(line) = line_at(text, line) else {
        return 0;
    };
    line.len().saturating_sub(line.trim_start().len())
}
