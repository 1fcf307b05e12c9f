use crate::scan::Scan;
use crate::spots::Spot;
use crate::wrong::{Why, Wrong};
use scx_asm_text::Token;

/// The label at the end of a jump that no line defines.
pub(crate) fn no_label<'a>(scan: Scan<'_, 'a>) -> Option<Wrong<'a>> {
    let spot = last_word(scan.spots())?;
    Some(Wrong {
        at: spot.at,
        why: Why::NoLabel(scan.line().get(spot.at..spot.end)?),
    })
}

fn last_word<'a>(spots: &[Spot<'a>]) -> Option<Spot<'a>> {
    let mut last = None;
    for spot in spots {
        if let Token::Word(_) = spot.token {
            last = Some(*spot);
        }
    }
    last
}

/// The label of the line, and the earlier line that defines it.
pub(crate) fn twice<'a>(scan: Scan<'_, 'a>, text: &str, before: usize) -> Option<Wrong<'a>> {
    let label = scan.text();
    for (index, line) in text.lines().enumerate() {
        let number = index.saturating_add(1);
        if number >= before {
            return None;
        }
        if label_of(line) == Some(label) {
            return Some(Wrong {
                at: scan.at(),
                why: Why::Twice(number),
            });
        }
    }
    None
}

/// The label that a line is, if it is one.
fn label_of(line: &str) -> Option<&str> {
    let code = match line.split_once('#') {
        Some((before, _comment)) => before,
        None => line,
    };
    Some(code.trim().strip_suffix(':')?.trim())
}
