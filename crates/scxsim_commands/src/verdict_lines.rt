ghost use Rattle.std.specs.Prelude.{◌≡◌, ◌+◌, ◌≤◌, ◌++◌, length, codes, decimal, option_map};
ghost use Rattle.arrayvec.specs.ArrayString.{array_string_len};
ghost use Rattle.scx_isa_semantics.specs.Callbacks.{callback_name as name_of};
ghost use Rattle.scxsim_commands.specs.VerdictLines.{verdict_line, line_of, verdict_lines};

use crate::lines::{Line, callback_line, short_name};
use crate::verdict::{Verdict, Verdicts};
use arrayvec::ArrayString;
use itoa::Buffer;
use scx_isa::{CALLBACKS, Callback};

/// The most bytes of the lines of all callbacks, and some more.
const LINES_CAPACITY: usize = 1792;

/// The lines of a policy's callbacks. They take no memory from the allocator.
pub(crate) type Lines = ArrayString<LINES_CAPACITY>;

/// The lines of all verdicts, in the order of callbacks.
pub(crate) fn lines_of(verdicts: &Verdicts) -> Lines
    ensures { result.bytes ≡ verdict_lines verdicts.now }
{
    let mut lines = Lines::new();
    for callback in CALLBACKS {
        push_line(&mut lines, callback, verdicts.get(callback));
    }
    lines
}

/// Appends the line of a callback, if it has a verdict.
fn push_line(lines: &mut Lines, callback: Callback, verdict: Option<&Verdict>)
    requires { array_string_len lines.old ≤ 1664 }
    ensures bytes { lines.new.bytes
        ≡ lines.old.bytes ++ line_of callback (option_map (λ v. v.now) verdict.entry) }
    ensures room { array_string_len lines.new ≤ array_string_len lines.old + 128 }
{
    if let Some(verdict) = verdict {
        lines.push_str(verdict_line(callback, *verdict).as_str());
    }
}

/// The line of a callback with that verdict.
pub fn verdict_line(callback: Callback, verdict: Verdict) -> Line
    ensures { result.bytes ≡ verdict_line callback verdict }
{
    match verdict {
        Verdict::Accepted(instructions) => accepted_line(callback, instructions),
        Verdict::Refused(fault, slot) => callback_line("", callback, " refused ", fault, slot),
    }
}

fn accepted_line(callback: Callback, instructions: usize) -> Line
    ensures { result.bytes
        ≡ name_of callback ++ codes " ok " ++ decimal instructions ++ codes "\n" }
{
    let mut digits = Buffer::new();
    let mut line = Line::new();
    line.push_str(short_name(callback));
    line.push_str(" ok ");
    line.push_str(digits.format(instructions));
    line.push_str("\n");
    line
}
