ghost use Rattle.std.specs.Prelude.{◌≡◌, ◌+◌, ◌≤◌, ◌++◌, length, codes, OnOk, OnErr};
ghost use Rattle.std.specs.Io.KnownBytes.{Appends};
ghost use Rattle.scxsim_output.specs.Output.{Counts, AppendsBeginning};
ghost use Rattle.scxsim_commands.specs.Lines.{fault_text};
ghost use Rattle.scxsim_commands.specs.RefusalLines as lines;

use crate::lines::{LINE_CAPACITY, Line, callback_line, push_fault};
use crate::refusal::{Refusal, Word};
use itoa::Buffer;
use scx_load_files::Cause;
use scxsim_output::{Failed, Out, write_named};

/// Writes the line of a refusal.
#[tactic(auto, using(crate::proofs::Parts::line_in_parts))]
pub(crate) fn write_refusal<W: Out>(refusal: &Refusal, out: &mut W) -> Result<(), Failed>
    ensures ok { OnOk result
        (Appends (W.contents out.old) (W.contents out.new) (lines.refusal_line refusal.now)) }
    ensures err { OnErr result
        (AppendsBeginning (W.contents out.old) (W.contents out.new)
        (lines.refusal_line refusal.now)) }
    ensures failures { Counts result (W.failure_count out.old) (W.failure_count out.new) }
{
    let start = start(refusal);
    let end = end(refusal);
    write_named(out, start.as_str(), path_of(refusal), end.as_str())
}

/// The text before the path of a key; of a refusal without one, the whole line.
fn start(refusal: &Refusal) -> Line
    ensures { result.bytes ≡ lines.start refusal.now }
{
    match refusal {
        Refusal::TooLarge => whole_line("refused: too large\n"),
        Refusal::NotUtf8 => whole_line("refused: not UTF-8\n"),
        Refusal::NoMemory => whole_line("refused: no memory\n"),
        Refusal::Decode { fault, slot } => {
            fault_line("refused: decode ", fault.number(), fault.name(), *slot)
        }
        Refusal::Verify { fault, slot } => {
            fault_line("refused: verify ", fault.number(), fault.name(), *slot)
        }
        Refusal::Assemble { fault, line } => {
            fault_line("refused: asm ", fault.number(), fault.name(), *line)
        }
        Refusal::Callback {
            callback,
            fault,
            slot,
        } => callback_line("refused: verify ", *callback, " ", *fault, *slot),
        Refusal::Policy { .. } => whole_line("refused: policy "),
        Refusal::Workload { .. } => whole_line("refused: workload "),
        Refusal::Events { .. } => whole_line("refused: events "),
        Refusal::Init(answer) => init_line(*answer),
        Refusal::OutOfRange(word) => word_line(*word),
        Refusal::NoSuchTask => whole_line("refused: word TASK: no such task\n"),
        Refusal::TooManyStretches(stretches) => stretches_line(*stretches),
    }
}

/// The path of a key, if there is one.
fn path_of(refusal: &Refusal) -> &str
    ensures { result.now ≡ lines.path_of refusal.now }
{
    match refusal {
        Refusal::Policy { path, .. } => path.as_str(),
        Refusal::Workload { path, .. } => path.as_str(),
        Refusal::Events { path, .. } => path.as_str(),
        _ => "",
    }
}

/// The text after the path of a key.
fn end(refusal: &Refusal) -> Line
    ensures { result.bytes ≡ lines.end refusal.now }
{
    match refusal {
        Refusal::Policy { cause, .. } => cause_end(*cause),
        Refusal::Workload { cause, .. } => cause_end(*cause),
        Refusal::Events { cause, .. } => cause_end(*cause),
        _ => Line::new(),
    }
}

/// The cause after the path of a key, and the line feed.
fn cause_end(cause: Cause) -> Line
    ensures { result.bytes ≡ codes ": " ++ lines.cause_text cause ++ codes "\n" }
{
    match cause {
        Cause::NotToml => whole_line(": not TOML\n"),
        Cause::Unknown => whole_line(": unknown\n"),
        Cause::Missing => whole_line(": missing\n"),
        Cause::WrongType => whole_line(": wrong type\n"),
        Cause::OutOfRange => whole_line(": out of range\n"),
        Cause::BadName => whole_line(": bad name\n"),
        Cause::Twice => whole_line(": twice\n"),
        Cause::TooMany => whole_line(": too many\n"),
        Cause::NoSuchGroup => whole_line(": no such group\n"),
        Cause::NoSuchTask => whole_line(": no such task\n"),
        Cause::NotALeaf => whole_line(": not a leaf\n"),
        Cause::TooDeep => whole_line(": too deep\n"),
        Cause::BadHex => whole_line(": bad hex\n"),
        Cause::Asm { fault, line } => fault_line(": asm ", fault.number(), fault.name(), line),
        Cause::Decode { fault, slot } => {
            fault_line(": decode ", fault.number(), fault.name(), slot)
        }
        Cause::Event { fault, line } => fault_line(": event ", fault.number(), fault.name(), line),
    }
}

fn init_line(answer: i64) -> Line
    ensures { result.bytes ≡ lines.init_line answer }
{
    let mut digits = Buffer::new();
    let mut line = Line::new();
    line.push_str("refused: init ");
    line.push_str(digits.format(answer));
    line.push_str("\n");
    line
}

fn word_line(word: Word) -> Line
    ensures { result.bytes ≡ lines.word_line word }
{
    match word {
        Word::From => whole_line("refused: word FROM: out of range\n"),
        Word::To => whole_line("refused: word TO: out of range\n"),
    }
}

fn stretches_line(stretches: u64) -> Line
    ensures { result.bytes ≡ lines.stretches_line stretches }
{
    let mut digits = Buffer::new();
    let mut line = Line::new();
    line.push_str("refused: too many stretches: ");
    line.push_str(digits.format(stretches));
    line.push_str(", at most 3750000\n");
    line
}

fn fault_line(start: &str, number: u8, name: &str, at: usize) -> Line
    requires { length start.now + length name.now ≤ 50 }
    ensures { result.bytes ≡ start.now ++ fault_text number name.now at ++ codes "\n" }
{
    let mut line = Line::new();
    line.push_str(start);
    push_fault(&mut line, number, name, at);
    line
}

fn whole_line(text: &str) -> Line
    requires { length text.now ≤ LINE_CAPACITY }
    ensures { result.bytes ≡ text.now }
{
    let mut line = Line::new();
    line.push_str(text);
    line
}
