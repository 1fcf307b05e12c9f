//! The objects of the Chrome trace format: each is an event, and `ph` is its kind. No name has a character that would
//! have to be quoted.

ghost use Rattle.std.specs.Prelude.{◌≡◌, ◌+◌, ◌≤◌, ◌++◌, length, take, OnOk};
ghost use Rattle.std.specs.Io.KnownBytes.{Appends};
ghost use Rattle.scxsim_output.specs.Output.{Counts};
ghost use Rattle.scxsim_trace.specs.Lines.{queue_text};
ghost use Rattle.scxsim_pictures.specs.Objects.{slice_start, instant_start, ejection_start, counter_start, start_text, name_text, arrow_text, end_text, object_text};

use crate::numbers::{put_micros, put_number, put_numbered, put_signed};
use crate::queue_lengths::Count;
use crate::tracks::{
    CPUS, EJECTIONS, PARKED as PARKED_TRACKS, QUEUES, TASKS, WAITS, WAKES, WEIGHTS,
};
use scx_sched_world::{BUILTIN, GLOBAL, HELD, PARKED, POLICY_END};
use scxsim_output::{Failed, Out, put_bytes, write_parts};
use scxsim_trace::Names;

/// Room for the bytes of an object before the name of its task or group.
const START_CAPACITY: usize = 160;

/// Room for the bytes after that name.
const END_CAPACITY: usize = 64;

/// The number of ids that may be read as a local queue.
const LOCAL_IDS: u64 = 0x1_0000_0000;

/// The time between two moments that a slice shows.
#[derive(Clone, Copy)]
pub(crate) struct Bar {
    pub(crate) since: u64,
    pub(crate) until: u64,
}

/// An object of a timeline.
#[derive(Clone, Copy)]
pub(crate) enum Object {
    /// A task ran on a CPU. The arrow of that number leads to the slice.
    Run {
        cpu: u32,
        task: u16,
        bar: Bar,
        arrow: Option<u64>,
    },
    /// A task waited in a queue. The arrow of that number begins there.
    Wait {
        task: u16,
        queue: u64,
        bar: Bar,
        arrow: Option<u64>,
    },
    /// A task was parked.
    Parked {
        task: u16,
        bar: Bar,
    },
    /// A task wakes.
    Wake {
        moment: u64,
        task: u16,
    },
    /// The length of a queue from its moment on.
    Length(Count),
    /// The weight of a group from that moment on.
    Weight {
        moment: u64,
        group: u32,
        weight: u32,
    },
    /// The policy is ejected because a task waited too long.
    Stall {
        moment: u64,
        task: u16,
    },
    /// The policy is ejected because of the fault of that number.
    Fault {
        moment: u64,
        number: u8,
    },
    /// The policy is ejected because a callback ended it, with that code.
    Exit {
        moment: u64,
        code: i64,
    },
}

/// Writes an object.
pub(crate) fn write_object<N: Names, W: Out>(
    names: &N,
    object: Object,
    out: &mut W,
) -> Result<(), Failed>
    ensures ok { OnOk result (Appends (W.contents out.old) (W.contents out.new)
        (object_text (N.lists names.now) object)) }
    ensures failures { Counts result (W.failure_count out.old) (W.failure_count out.new) }
{
    let mut start = [0; START_CAPACITY];
    let start_end = put_start(&mut start, object);
    let mut end = [0; END_CAPACITY];
    let end_end = put_end(&mut end, object);
    write_parts(
        out,
        &start[..start_end],
        name_of(names, object).as_bytes(),
        &end[..end_end],
    )
}

/// The name of the task or the group that an object names, if it names one.
#[inline(always)]
fn name_of<N: Names>(names: &N, object: Object) -> &str
    ensures { result.now ≡ name_text (N.lists names.now) object }
{
    match object {
        Object::Run { task, .. } => names.task(task),
        Object::Wait { .. } => "",
        Object::Parked { task, .. } => names.task(task),
        Object::Wake { task, .. } => names.task(task),
        Object::Length(_) => "",
        Object::Weight { group, .. } => names.group(group),
        Object::Stall { task, .. } => names.task(task),
        Object::Fault { .. } => "",
        Object::Exit { .. } => "",
    }
}

/// Puts the start of an object, and answers where it ends.
#[inline(always)]
fn put_start(field: &mut [u8; START_CAPACITY], object: Object) -> usize
    ensures text { take result field.new ≡ start_text object }
    ensures room { result ≤ 160 }
{
    match object {
        Object::Run { cpu, bar, .. } => put_slice(field, 0, CPUS, cpu, bar),
        Object::Wait {
            task,
            queue,
            bar,
            ..
        } => {
            let at = put_slice(field, 0, WAITS, u32::from(task), bar);
            put_queue(field, at, queue)
        }
        Object::Parked { task, bar } => put_slice(field, 0, PARKED_TRACKS, u32::from(task), bar),
        Object::Wake { moment, .. } => {
            let at = put_instant(field, 0, WAKES, moment);
            put_bytes(field, at, b",\"name\":\"")
        }
        Object::Length(count) => {
            let at = put_counter(field, 0, QUEUES, count.moment);
            put_queue(field, at, count.queue)
        }
        Object::Weight { moment, .. } => put_counter(field, 0, WEIGHTS, moment),
        Object::Stall { moment, .. } => put_ejection(field, 0, moment, b"stall "),
        Object::Fault { moment, number } => {
            let at = put_ejection(field, 0, moment, b"fault ");
            put_number(field, at, u64::from(number))
        }
        Object::Exit { moment, code } => {
            let at = put_ejection(field, 0, moment, b"exit ");
            put_signed(field, at, code)
        }
    }
}

/// Puts the start of a slice of that track.
fn put_slice(field: &mut [u8], at: usize, pid: u32, tid: u32, bar: Bar) -> usize
    requires { at + 130 ≤ length field.old }
    ensures text { take result field.new ≡ take at field.old ++ slice_start pid tid bar }
    ensures room { result ≤ at + 130 }
{
    let length = bar.until.saturating_sub(bar.since);
    let at = put_numbered(field, at, b",\n{\"ph\":\"X\",\"pid\":", u64::from(pid));
    let at = put_numbered(field, at, b",\"tid\":", u64::from(tid));
    let at = put_micros(field, at, b",\"ts\":", bar.since);
    let at = put_micros(field, at, b",\"dur\":", length);
    put_bytes(field, at, b",\"name\":\"")
}

/// Puts the start of an instant of that track of the tasks, up to its moment.
fn put_instant(field: &mut [u8], at: usize, tid: u32, moment: u64) -> usize
    requires { at + 100 ≤ length field.old }
    ensures text { take result field.new ≡ take at field.old ++ instant_start tid moment }
    ensures room { result ≤ at + 100 }
{
    let at = put_numbered(field, at, b",\n{\"ph\":\"i\",\"pid\":", u64::from(TASKS));
    let at = put_numbered(field, at, b",\"tid\":", u64::from(tid));
    put_micros(field, at, b",\"ts\":", moment)
}

/// Puts the start of an ejection, which is an instant of all tracks, and the words for its cause.
fn put_ejection(field: &mut [u8], at: usize, moment: u64, words: &[u8]) -> usize
    requires words { length words.now ≤ 6 }
    requires room { at + 130 ≤ length field.old }
    ensures text { take result field.new ≡ take at field.old ++ ejection_start moment words.now }
    ensures room { result ≤ at + 130 }
{
    let at = put_instant(field, at, EJECTIONS, moment);
    let at = put_bytes(field, at, b",\"s\":\"g\",\"name\":\"eject ");
    put_bytes(field, at, words)
}

/// Puts the start of a counter of that group of tracks.
fn put_counter(field: &mut [u8], at: usize, pid: u32, moment: u64) -> usize
    requires { at + 80 ≤ length field.old }
    ensures text { take result field.new ≡ take at field.old ++ counter_start pid moment }
    ensures room { result ≤ at + 80 }
{
    let at = put_numbered(field, at, b",\n{\"ph\":\"C\",\"pid\":", u64::from(pid));
    let at = put_micros(field, at, b",\"ts\":", moment);
    put_bytes(field, at, b",\"name\":\"")
}

/// Puts the name of a queue, as in a trace.
fn put_queue(field: &mut [u8], at: usize, queue: u64) -> usize
    requires { at + 26 ≤ length field.old }
    ensures text { take result field.new ≡ take at field.old ++ queue_text queue }
    ensures room { result ≤ at + 26 }
{
    if queue < POLICY_END {
        put_numbered(field, at, b"queue ", queue)
    } else if queue == GLOBAL {
        put_bytes(field, at, b"global")
    } else if queue == HELD {
        put_bytes(field, at, b"held")
    } else if queue == BUILTIN {
        put_bytes(field, at, b"builtin")
    } else if queue == PARKED {
        put_bytes(field, at, b"parked")
    } else {
        put_numbered(field, at, b"local ", queue % LOCAL_IDS)
    }
}

/// Puts the end of an object, and answers where it ends.
#[inline(always)]
fn put_end(field: &mut [u8; END_CAPACITY], object: Object) -> usize
    ensures text { take result field.new ≡ end_text object }
    ensures room { result ≤ 64 }
{
    match object {
        Object::Run { arrow, .. } => put_arrow(field, arrow, b"\",\"flow_in\":true}"),
        Object::Wait { arrow, .. } => put_arrow(field, arrow, b"\",\"flow_out\":true}"),
        Object::Parked { .. } => put_bytes(field, 0, b"\"}"),
        Object::Wake { .. } => put_bytes(field, 0, b"\"}"),
        Object::Length(count) => {
            let at = put_numbered(field, 0, b"\",\"args\":{\"tasks\":", count.tasks);
            put_bytes(field, at, b"}}")
        }
        Object::Weight { weight, .. } => {
            let at = put_numbered(field, 0, b"\",\"args\":{\"weight\":", u64::from(weight));
            put_bytes(field, at, b"}}")
        }
        Object::Stall { .. } => put_bytes(field, 0, b"\"}"),
        Object::Fault { .. } => put_bytes(field, 0, b"\"}"),
        Object::Exit { .. } => put_bytes(field, 0, b"\"}"),
    }
}

/// Puts the end of a slice, with the number of its arrow and these words, if it has one.
fn put_arrow(field: &mut [u8; END_CAPACITY], arrow: Option<u64>, words: &[u8]) -> usize
    requires { length words.now ≤ 20 }
    ensures text { take result field.new ≡ arrow_text arrow words.now }
    ensures room { result ≤ 64 }
{
    let Some(number) = arrow else {
        return put_bytes(field, 0, b"\"}");
    };
    let at = put_numbered(field, 0, b"\",\"bind_id\":\"", number);
    put_bytes(field, at, words)
}
