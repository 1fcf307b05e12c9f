ghost use Rattle.std.specs.Prelude.{◌≡◌, ◌+◌, ◌≤◌, ◌<◌, ◌++◌, length, take, codes, decimal, OnOk, OnErr};
ghost use Rattle.std.specs.Fmt.{signed_decimal};
ghost use Rattle.std.specs.Io.KnownBytes.{Appends};
ghost use Rattle.scxsim_output.specs.Output.{AppendsBeginning, Counts};
ghost use Rattle.scxsim_trace.specs.Lines as lines;
ghost use Rattle.scxsim_trace.specs.Lines.{note_line as line_of};

use crate::clock_text::{ClockText, put_digits};
use crate::kinds::{Inserts, Kind, Moves, Sleeps, Starts, Stops, Wakes};
use crate::names::Names;
use itoa::Buffer;
use scx_sched_world::{BUILTIN, GLOBAL, HELD, Note, PARKED, POLICY_END, What};
use scxsim_output::{Failed, Out, SHORT, Short, put_byte, put_bytes, put_name, write_parts};

/// The most bytes of a name that a line has room for. No file has a longer name.
const NAME_CAPACITY: usize = 16;

/// The number of ids that may be read as a local queue.
const LOCAL_IDS: u64 = 0x1_0000_0000;

/// Writes the line of a note. The kinds of which there are most have a function each, which is compiled for that
/// kind: who makes a note knows its kind, so nothing is left to ask.
#[inline(always)]
pub(crate) fn write_note<N: Names, W: Out>(
    names: &N,
    clock: &mut ClockText,
    note: Note,
    out: &mut W,
) -> Result<(), Failed>
    ensures ok { OnOk result
        (Appends (W.contents out.old) (W.contents out.new) (line_of (N.lists names.now) note)) }
    ensures err { OnErr result
        (AppendsBeginning (W.contents out.old) (W.contents out.new)
        (line_of (N.lists names.now) note)) }
    ensures failures { Counts result (W.failure_count out.old) (W.failure_count out.new) }
{
    clock.set(note.clock);
    match note.what {
        What::Wake(task) => write_line::<Wakes, N, W>(names, clock, task, (), out),
        What::Sleep(task) => write_line::<Sleeps, N, W>(names, clock, task, (), out),
        What::Insert(task, queue) => write_line::<Inserts, N, W>(names, clock, task, queue, out),
        What::Move(task, cpu) => write_line::<Moves, N, W>(names, clock, task, cpu, out),
        What::Run(task, cpu) => write_line::<Starts, N, W>(names, clock, task, cpu, out),
        What::Stop(task, cpu) => write_line::<Stops, N, W>(names, clock, task, cpu, out),
        other => write_any(names, clock, other, out),
    }
}

/// Writes the line of a note of one of the common kinds. If it goes straight into the output, it makes no call.
#[inline(never)]
fn write_line<K: Kind, N: Names, W: Out>(
    names: &N,
    clock: &ClockText,
    task: u16,
    object: K::Object,
    out: &mut W,
) -> Result<(), Failed>
    ensures ok { OnOk result (Appends (W.contents out.old) (W.contents out.new)
        (line_of (N.lists names.now)
        record { clock = clock.now.clock; what = K.says task object })) }
    ensures err { OnErr result (AppendsBeginning (W.contents out.old) (W.contents out.new)
        (line_of (N.lists names.now)
        record { clock = clock.now.clock; what = K.says task object })) }
    ensures failures { Counts result (W.failure_count out.old) (W.failure_count out.new) }
{
    let what = K::what(task, object);
    let name = name(names, what);
    if name.len() > NAME_CAPACITY || !is_brief(what) {
        return write_kind::<K, N, W>(names, clock, task, object, out);
    }
    if out.hold_text(&Line { clock, what, name }) {
        return Ok(());
    }
    write_kind::<K, N, W>(names, clock, task, object, out)
}

/// Writes the line of a note of one of the common kinds.
#[inline(never)]
fn write_kind<K: Kind, N: Names, W: Out>(
    names: &N,
    clock: &ClockText,
    task: u16,
    object: K::Object,
    out: &mut W,
) -> Result<(), Failed>
    ensures ok { OnOk result (Appends (W.contents out.old) (W.contents out.new)
        (line_of (N.lists names.now)
        record { clock = clock.now.clock; what = K.says task object })) }
    ensures err { OnErr result (AppendsBeginning (W.contents out.old) (W.contents out.new)
        (line_of (N.lists names.now)
        record { clock = clock.now.clock; what = K.says task object })) }
    ensures failures { Counts result (W.failure_count out.old) (W.failure_count out.new) }
{
    write_any(names, clock, K::what(task, object), out)
}

/// Writes the line of a note of any kind.
#[inline(never)]
fn write_any<N: Names, W: Out>(
    names: &N,
    clock: &ClockText,
    what: What,
    out: &mut W,
) -> Result<(), Failed>
    ensures ok { OnOk result (Appends (W.contents out.old) (W.contents out.new)
        (line_of (N.lists names.now) record { clock = clock.now.clock; what = what })) }
    ensures err { OnErr result (AppendsBeginning (W.contents out.old) (W.contents out.new)
        (line_of (N.lists names.now) record { clock = clock.now.clock; what = what })) }
    ensures failures { Counts result (W.failure_count out.old) (W.failure_count out.new) }
{
    let name = name(names, what);
    if name.len() > NAME_CAPACITY {
        return write_in_parts(clock, what, name, out);
    }
    write_whole(&Line { clock, what, name }, out)
}

/// True if the number at the end of a line, if there is one, has one digit or two.
#[inline(always)]
fn is_brief(what: What) -> bool {
    match what {
        What::Insert(_, queue) => queue % LOCAL_IDS < 100 && (queue < 100 || queue >= POLICY_END),
        What::Move(_, cpu) => cpu < 100,
        What::Run(_, cpu) => cpu < 100,
        What::Stop(_, cpu) => cpu < 100,
        _ => true,
    }
}

/// The line of a note: its clock, the words with the name, and what comes after them.
#[derive(Clone, Copy)]
struct Line<'a> {
    clock: &'a ClockText,
    what: What,
    name: &'a str,
    ghost short: { length name.now ≤ 16 },
}

impl Line<'_> {
    #[inline(always)]
    fn put_all(&self, field: &mut [u8], at: usize) -> usize
        requires { at + 80 ≤ length field.old }
        ensures text { take result field.new ≡ take at field.old
            ++ (lines.start record { clock = self.now.clock.now.clock; what = self.now.what }
            ++ self.now.name.now ++ (lines.object self.now.what ++ codes "\n")) }
        ensures some { 0 < result }
        ensures room { result ≤ at + 80 }
    {
        let at = self.clock.put(field, at);
        let at = put_verb(field, at, self.what);
        let at = put_name(field, at, self.name.as_bytes());
        put_end(field, at, self.what)
    }
}

impl Short for Line<'_> {
    ghost text = { λ l. lines.start record { clock = l.clock.now.clock; what = l.what }
        ++ l.name.now ++ (lines.object l.what ++ codes "\n") };

    #[inline(always)]
    fn put(&self, field: &mut [u8], at: usize) -> usize {
        self.put_all(field, at)
    }
}

/// Writes a line. It is put together first, and written at once.
#[inline(always)]
fn write_whole<W: Out>(line: &Line<'_>, out: &mut W) -> Result<(), Failed>
    ensures ok { OnOk result (Appends (W.contents out.old) (W.contents out.new)
        (lines.start record { clock = line.now.clock.now.clock; what = line.now.what }
        ++ line.now.name.now ++ (lines.object line.now.what ++ codes "\n"))) }
    ensures err { OnErr result (AppendsBeginning (W.contents out.old) (W.contents out.new)
        (lines.start record { clock = line.now.clock.now.clock; what = line.now.what }
        ++ line.now.name.now ++ (lines.object line.now.what ++ codes "\n"))) }
    ensures failures { Counts result (W.failure_count out.old) (W.failure_count out.new) }
{
    let mut field = [0; SHORT];
    let end = line.put_all(&mut field, 0);
    out.write_short(&field, end)
}

/// Writes the line of a note with a name for which a line has no room.
#[inline(never)]
fn write_in_parts<W: Out>(
    clock: &ClockText,
    what: What,
    name: &str,
    out: &mut W,
) -> Result<(), Failed>
    ensures ok { OnOk result (Appends (W.contents out.old) (W.contents out.new)
        (lines.start record { clock = clock.now.clock; what = what }
        ++ name.now ++ (lines.object what ++ codes "\n"))) }
    ensures err { OnErr result (AppendsBeginning (W.contents out.old) (W.contents out.new)
        (lines.start record { clock = clock.now.clock; what = what }
        ++ name.now ++ (lines.object what ++ codes "\n"))) }
    ensures failures { Counts result (W.failure_count out.old) (W.failure_count out.new) }
{
    let mut start = [0; SHORT];
    let clock_end = clock.put(&mut start, 0);
    let start_end = put_verb(&mut start, clock_end, what);
    let mut object = [0; SHORT];
    let object_end = put_end(&mut object, 0, what);
    write_parts(
        out,
        &start[..start_end],
        name.as_bytes(),
        &object[..object_end],
    )
}

/// The name in a note, if there is one.
#[inline(always)]
fn name<N: Names>(names: &N, what: What) -> &str
    ensures { result.now ≡ lines.subject (N.lists names.now) what }
{
    match what {
        What::Wake(task) => names.task(task),
        What::Sleep(task) => names.task(task),
        What::Insert(task, _) => names.task(task),
        What::Move(task, _) => names.task(task),
        What::Run(task, _) => names.task(task),
        What::Stop(task, _) => names.task(task),
        What::Idle(_) => "",
        What::Weight(group, _) => names.group(group),
        What::TaskWeight(task, _) => names.task(task),
        What::Stall(task) => names.task(task),
        What::Fault(_) => "",
        What::Exit(_) => "",
    }
}

/// Puts the words and a space at `at`, and answers where they end.
#[inline(always)]
fn put_verb(line: &mut [u8], at: usize, what: What) -> usize
    requires { at + 12 ≤ length line.old }
    ensures text { take result line.new ≡ take at line.old ++ lines.verb what }
    ensures room { result ≤ at + 12 }
{
    match what {
        What::Wake(_) => put_word(line, at, *b"wake    ", 5),
        What::Sleep(_) => put_word(line, at, *b"sleep   ", 6),
        What::Insert(_, _) => put_word(line, at, *b"insert  ", 7),
        What::Move(_, _) => put_word(line, at, *b"move    ", 5),
        What::Run(_, _) => put_word(line, at, *b"run     ", 4),
        What::Stop(_, _) => put_word(line, at, *b"stop    ", 5),
        What::Idle(_) => put_bytes(line, at, b"idle cpu "),
        What::Weight(_, _) => put_word(line, at, *b"weight  ", 7),
        What::TaskWeight(_, _) => put_word(line, at, *b"weight  ", 7),
        What::Stall(_) => put_bytes(line, at, b"eject stall "),
        What::Fault(_) => put_bytes(line, at, b"eject fault "),
        What::Exit(_) => put_bytes(line, at, b"eject exit "),
    }
}

/// Puts the text after the name at `at`, with the line feed, and answers where it ends.
#[inline(always)]
fn put_end(line: &mut [u8], at: usize, what: What) -> usize
    requires { at + 28 ≤ length line.old }
    ensures text { take result line.new ≡ take at line.old ++ (lines.object what ++ codes "\n") }
    ensures some { 0 < result }
    ensures room { result ≤ at + 28 }
{
    let at = put_object(line, at, what);
    put_byte(line, at, b'\n')
}

#[inline(always)]
fn put_object(line: &mut [u8], at: usize, what: What) -> usize
    requires { at + 27 ≤ length line.old }
    ensures text { take result line.new ≡ take at line.old ++ lines.object what }
    ensures room { result ≤ at + 27 }
{
    match what {
        What::Wake(_) => at,
        What::Sleep(_) => at,
        What::Insert(_, queue) => put_queue(line, at, queue),
        What::Move(_, cpu) => put_numbered(line, at, *b" local  ", 7, u64::from(cpu)),
        What::Run(_, cpu) => put_numbered(line, at, *b" cpu    ", 5, u64::from(cpu)),
        What::Stop(_, cpu) => put_numbered(line, at, *b" cpu    ", 5, u64::from(cpu)),
        What::Idle(cpu) => put_number(line, at, u64::from(cpu)),
        What::Weight(_, weight) => put_numbered(line, at, *b"        ", 1, u64::from(weight)),
        What::TaskWeight(_, weight) => put_numbered(line, at, *b"        ", 1, u64::from(weight)),
        What::Stall(_) => at,
        What::Fault(fault) => put_number(line, at, u64::from(fault.number())),
        What::Exit(code) => put_signed(line, at, code),
    }
}

/// Puts a space and the queue of that id at `at`, and answers where it ends.
#[inline(always)]
fn put_queue(line: &mut [u8], at: usize, queue: u64) -> usize
    requires { at + 27 ≤ length line.old }
    ensures text { take result line.new ≡ take at line.old ++ codes " " ++ lines.queue_text queue }
    ensures room { result ≤ at + 27 }
{
    if queue < POLICY_END {
        put_numbered(line, at, *b" queue  ", 7, queue)
    } else if queue == GLOBAL {
        put_word(line, at, *b" global ", 7)
    } else if queue == HELD {
        put_word(line, at, *b" held   ", 5)
    } else if queue == BUILTIN {
        put_word(line, at, *b" builtin", 8)
    } else if queue == PARKED {
        put_word(line, at, *b" parked ", 7)
    } else {
        put_numbered(line, at, *b" local  ", 7, queue % LOCAL_IDS)
    }
}

/// Puts a word and a number at `at`, and answers where the number ends.
#[inline(always)]
fn put_numbered(line: &mut [u8], at: usize, word: [u8; 8], count: usize, number: u64) -> usize
    requires count { count ≤ 7 }
    requires room { at + 27 ≤ length line.old }
    ensures text { take result line.new ≡ take at line.old ++ (take count word ++ decimal number) }
    ensures room { result ≤ at + 27 }
{
    let at = put_word(line, at, word, count);
    put_number(line, at, number)
}

/// Puts the first `count` bytes of a word at `at`, and answers where they end. All 8 are copied at once.
#[inline(always)]
#[tactic(auto, using(scxsim_output::proofs::Shorts::with_text))]
fn put_word(line: &mut [u8], at: usize, word: [u8; 8], count: usize) -> usize
    requires count { count ≤ 8 }
    requires room { at + 8 ≤ length line.old }
    ensures end { result ≡ at + count }
    ensures text { take result line.new ≡ take at line.old ++ take count word }
{
    line[at..at + 8].copy_from_slice(&word);
    at + count
}

/// Puts a number with its sign at `at`, and answers where it ends.
#[inline(never)]
fn put_signed(line: &mut [u8], at: usize, number: i64) -> usize
    requires { at + 27 ≤ length line.old }
    ensures text { take result line.new ≡ take at line.old ++ signed_decimal number }
    ensures room { result ≤ at + 27 }
{
    let mut digits = Buffer::new();
    put_bytes(line, at, digits.format(number).as_bytes())
}

/// Puts a number at `at`, and answers where it ends. Most have one digit or two.
#[inline(always)]
#[tactic(auto, using(std::proofs::lemmas::Fmt::decimal_digit))]
fn put_number(line: &mut [u8], at: usize, number: u64) -> usize
    requires { at + 20 ≤ length line.old }
    ensures text { take result line.new ≡ take at line.old ++ decimal number }
    ensures room { result ≤ at + 20 }
{
    if number < 10 {
        put_byte(line, at, b'0' + number as u8)
    } else if number < 100 {
        put_two_digits(line, at, number)
    } else {
        put_digits(line, at, number)
    }
}

/// The digits of the numbers below 100, two for each.
static PAIRS: [u8; 200] =
    *b"00010203040506070809101112131415161718192021222324252627282930313233343536373839404142434445464748495051525354555657585960616263646566676869707172737475767778798081828384858687888990919293949596979899";

#[inline(always)]
fn put_two_digits(line: &mut [u8], at: usize, number: u64) -> usize
    requires least { 10 ≤ number }
    requires most { number < 100 }
    requires room { at + 20 ≤ length line.old }
    ensures text { take result line.new ≡ take at line.old ++ decimal number }
    ensures room { result ≤ at + 20 }
{
    let from = number as usize * 2;
    let tens = PAIRS[from];
    let ones = PAIRS[from + 1];
    let at = put_byte(line, at, tens);
    put_byte(line, at, ones)
}
