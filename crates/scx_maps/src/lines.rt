ghost use Rattle.std.specs.Prelude.{◌≡◌, ◌<◌, nat_eq, if◌then◌else◌, IfOk};
ghost use Rattle.scx_isa_semantics.specs.Directories.{Directory, line_slot, line_pushed, next_of, oldest, newest, without_oldest, without_newest};
ghost use Rattle.scx_isa_semantics.specs.declared.map_kinds.Line.{Line};

use crate::codes::{NOT_THERE, TOO_BIG};
use scx_isa_semantics::Line;

/// The slot of the value after that many others from the oldest one on.
fn line_slot(slots: u32, line: Line, after: u32) -> u32
    requires { 0 < slots }
    ensures slot { result ≡ line_slot slots line after }
    ensures within { result < slots }
{
    ((u64::from(line.first) + u64::from(after)) % u64::from(slots)) as u32
}

/// Pushes a value with flags that a queue or a stack takes: the line after it, and the slot for the
/// value.
pub(crate) fn push(slots: u32, line: Line, flags: u64) -> (Line, Result<u32, u64>)
    requires { 0 < slots }
    ensures placed { (of : Line → Directory)
        → record { directory = of result.0; slot = result.1 } ≡ line_pushed of slots line flags }
    ensures within { IfOk result.1 (λ slot. slot < slots) }
{
    if line.count < slots {
        let longer = Line {
            first: line.first,
            count: line.count + 1,
        };
        return (longer, Ok(line_slot(slots, line, line.count)));
    }
    if flags == 2 {
        let turned = Line {
            first: line_slot(slots, line, 1),
            count: line.count,
        };
        return (turned, Ok(line_slot(slots, line, 0)));
    }
    (line, Err(TOO_BIG))
}

/// The slot of the oldest value.
pub(crate) fn oldest(slots: u32, line: Line) -> Result<u32, u64>
    requires { 0 < slots }
    ensures slot { result ≡ next_of slots line (oldest slots line) }
    ensures within { IfOk result (λ slot. slot < slots) }
{
    if line.count == 0 {
        return Err(NOT_THERE);
    }
    Ok(line_slot(slots, line, 0))
}

/// The slot of the newest value.
pub(crate) fn newest(slots: u32, line: Line) -> Result<u32, u64>
    requires { 0 < slots }
    ensures slot { result ≡ next_of slots line (newest slots line) }
    ensures within { IfOk result (λ slot. slot < slots) }
{
    if line.count == 0 {
        return Err(NOT_THERE);
    }
    Ok(line_slot(slots, line, line.count - 1))
}

/// The line without its oldest value, if it has one.
pub(crate) fn without_oldest(slots: u32, line: Line) -> Line
    requires { 0 < slots }
    ensures { result ≡ if nat_eq line.count 0 then line else without_oldest slots line }
{
    if line.count == 0 {
        return line;
    }
    Line {
        first: line_slot(slots, line, 1),
        count: line.count - 1,
    }
}

/// The line without its newest value, if it has one.
pub(crate) fn without_newest(line: Line) -> Line
    ensures { result ≡ if nat_eq line.count 0 then line else without_newest line }
{
    if line.count == 0 {
        return line;
    }
    Line {
        first: line.first,
        count: line.count - 1,
    }
}
