ghost use Rattle.std.specs.Prelude.{◌++◌, OnOk, codes, decimal};
ghost use Rattle.std.specs.Fmt.{signed_decimal};
ghost use Rattle.std.specs.Io.KnownBytes.{Appends};
ghost use Rattle.scxsim_output.specs.Output.{Counts};
ghost use Rattle.scxsim_trace.specs.Lines.{task_name, names_of};

use itoa::Buffer;
use scx_load_workloads::Workload;
use scxsim_output::{Failed, Out, write_all, write_named};
use scxsim_trace::Names;

/// Writes a task's name between two texts.
pub(crate) fn write_task<W: Out>(
    about: &Workload,
    start: &str,
    task: u16,
    end: &str,
    out: &mut W,
) -> Result<(), Failed>
    ensures ok { OnOk result (Appends (W.contents out.old) (W.contents out.new)
        (start.now ++ task_name (names_of about.now) task ++ end.now)) }
    ensures failures { Counts result (W.failure_count out.old) (W.failure_count out.new) }
{
    write_named(out, start, Names::task(about, task), end)
}

/// Writes a number between two texts.
pub(crate) fn write_number<W: Out>(
    out: &mut W,
    start: &str,
    number: u64,
    end: &str,
) -> Result<(), Failed>
    ensures ok { OnOk result (Appends (W.contents out.old) (W.contents out.new)
        (start.now ++ decimal number ++ end.now)) }
    ensures failures { Counts result (W.failure_count out.old) (W.failure_count out.new) }
{
    let mut digits = Buffer::new();
    write_named(out, start, digits.format(number), end)
}

/// Writes a number that may be below 0 after a text.
pub(crate) fn write_signed<W: Out>(out: &mut W, start: &str, number: i64) -> Result<(), Failed>
    ensures ok { OnOk result (Appends (W.contents out.old) (W.contents out.new)
        (start.now ++ signed_decimal number ++ codes "")) }
    ensures failures { Counts result (W.failure_count out.old) (W.failure_count out.new) }
{
    let mut digits = Buffer::new();
    write_named(out, start, digits.format(number), "")
}

/// Writes a text.
pub(crate) fn write_text<W: Out>(out: &mut W, text: &str) -> Result<(), Failed>
    ensures ok { OnOk result (Appends (W.contents out.old) (W.contents out.new) text.now) }
    ensures failures { Counts result (W.failure_count out.old) (W.failure_count out.new) }
{
    write_all(out, text.as_bytes())
}
