ghost use Rattle.std.specs.Prelude.{◌≡◌, ◌+◌, ◌≤◌, ◌++◌, length, codes, OnOk, OnErr};
ghost use Rattle.std.specs.Io.KnownBytes.{Appends};
ghost use Rattle.arrayvec.specs.ArrayString.{array_string_len};
ghost use Rattle.scx_verify.specs.Faults.{fault_number, fault_name};
ghost use Rattle.scx_isa_semantics.specs.Callbacks.{callback_name as name_of};
ghost use Rattle.scxsim_output.specs.Output.{HasFailed};
ghost use Rattle.scxsim_commands.specs.Lines as lines;

use arrayvec::ArrayString;
use itoa::Buffer;
use scx_isa::Callback;
use scx_verify::Fault;
use scxsim_output::{Failed, Out, write_named};

/// The bytes of the longest line, without a path.
pub(crate) const LINE_CAPACITY: usize = 128;

/// The text of one line, its line feed included, or the part before or after a path. It takes no
/// memory from the allocator.
pub type Line = ArrayString<LINE_CAPACITY>;

/// The line of a run that ended by `exit`, with its answer and the number of its steps.
pub(crate) fn done_line(r0: u64, steps: usize) -> Line
    ensures { result.bytes ≡ lines.done_line r0 steps }
{
    let mut digits = Buffer::new();
    let mut line = Line::new();
    line.push_str("r0 = ");
    line.push_str(digits.format(r0));
    line.push_str(" in ");
    line.push_str(digits.format(steps));
    line.push_str(" steps\n");
    line
}

/// Writes the line of a file that could not be read.
pub fn write_unread<W: Out>(path: &str, out: &mut W) -> Result<(), Failed>
    ensures ok { OnOk result
        (Appends (W.contents out.old) (W.contents out.new) (lines.unread_line path.now)) }
    ensures err { OnErr result (HasFailed (W.failure_count out.old) (W.failure_count out.new)) }
{
    write_named(out, "failed: reading ", path, "\n")
}

/// The line of a refused callback: its name between two words, and then the fault and its slot.
pub(crate) fn callback_line(
    before: &str,
    callback: Callback,
    after: &str,
    fault: Fault,
    slot: usize,
) -> Line
    requires { length before.now + length after.now ≤ 20 }
    ensures { result.bytes
        ≡ before.now ++ name_of callback ++ after.now
        ++ lines.fault_text (fault_number fault) (fault_name fault) slot ++ codes "\n" }
{
    let mut line = Line::new();
    line.push_str(before);
    line.push_str(short_name(callback));
    line.push_str(after);
    push_fault(&mut line, fault.number(), short_fault(fault), slot);
    line
}

/// The name of a callback, which leaves room in a line.
pub(crate) fn short_name(callback: Callback) -> &'static str
    ensures name { result.now ≡ name_of callback }
    ensures short { length result.now ≤ 11 }
{
    callback.name()
}

/// The name of a fault, which leaves room in a line.
fn short_fault(fault: Fault) -> &'static str
    ensures name { result.now ≡ fault_name fault }
    ensures short { length result.now ≤ 20 }
{
    fault.name()
}

/// Appends a fault by its number and name, where it was found, and the line feed.
pub(crate) fn push_fault(line: &mut Line, number: u8, name: &str, at: usize)
    requires { array_string_len line.old + length name.now ≤ 60 }
    ensures { line.new.bytes
        ≡ line.old.bytes ++ lines.fault_text number name.now at ++ codes "\n" }
{
    let mut digits = Buffer::new();
    line.push_str(digits.format(number));
    line.push_str(" ");
    line.push_str(name);
    line.push_str(" at ");
    line.push_str(digits.format(at));
    line.push_str("\n");
}
