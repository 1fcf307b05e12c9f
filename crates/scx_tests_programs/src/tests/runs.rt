//! Runs of callbacks over a host of one task and a map of one number.

use crate::same::expect_same;
use scx_asm::assemble;
use scx_isa::{Callback, Program, TaskId, flow};
use scx_maps::{MapDefs, MapKind, Maps, Shape, Size};
use scx_tests_examples::{INIT, OneTask};
use scx_vm::{Arg, Args};
use scx_vm_tagged::{Ending, run_unwatched};
use std::alloc::{AllocError, Global};
use std::process::Abort;
use std::test::Fail;

/// The task that callbacks are given.
const TASK: Arg = Arg::Task(TaskId(3));

/// Looks up an element by the key 0 on the stack.
const LOOKUP: &str = "*(u32 *)(r10 - 4) = 0\nr2 = r10\nr2 += -4\nr1 = map 0\ncall 1\n";

/// The arguments of callbacks that take a task alone.
const ONE: Args = Args {
    first: TASK,
    second: Arg::Unset,
    third: Arg::Unset,
};

/// The run of the program, if its flow is accepted.
fn run_program(
    program: &Program,
    callback: Callback,
    arguments: Args,
    maps: &mut Maps,
    host: &mut OneTask,
) -> Option<Ending> {
    flow(program).ok()?;
    // The host has room for as many calls as can be counted.
    let _instructions = program.instructions();
    Some(run_unwatched(program, callback, arguments, maps, host))
}

/// The run of the program of a text.
fn run(
    alloc: Global,
    text: &str,
    callback: Callback,
    arguments: Args,
    maps: &mut Maps,
    host: &mut OneTask,
) -> Option<Ending> {
    let program = assemble(alloc, text).ok()?;
    let ran = run_program(&program, callback, arguments, maps, host);
    drop(program);
    ran
}

/// One map of one number of eight bytes.
fn map_of(alloc: Global, number: u64) -> Option<Maps> {
    let shapes = [Shape {
        entries: 1,
        value_size: 8,
        kind: MapKind::Array,
    }];
    let defs = MapDefs::new(&shapes).ok()?;
    let mut maps = Maps::new(alloc, &defs).ok()?;
    if maps.value_size(0, 0) < 8 {
        return None;
    }
    maps.store(0, 0, 0, Size::DoubleWord, number);
    Some(maps)
}

fn number_in(maps: &Maps) -> Option<u64> {
    if maps.value_size(0, 0) < 8 {
        return None;
    }
    Some(maps.load(0, 0, 0, Size::DoubleWord))
}

/// A program, its callback and arguments, the number in the map, and how the run ends, with the number that
/// it leaves there.
type Row<'a> = (&'a str, Callback, Args, u64, &'a str);

/// The outcome of the program of a row, over a map of its number.
fn outcome_of<R: AllocGlobal + Abort>(
    rt: &R,
    host: &mut OneTask,
    row: &Row<'_>,
) -> Result<String, AllocError> {
    let &(text, callback, arguments, number, _) = row;
    let mut maps = map_of(rt.alloc(), number).expect(rt, "there is memory");
    let ran = run(rt.alloc(), text, callback, arguments, &mut maps, host);
    let left = number_in(&maps).expect(rt, "the map keeps its shape");
    outcome(rt.alloc(), ran, left)
}

fn expect_row<R: AllocGlobal + Abort>(
    rt: &R,
    host: &mut OneTask,
    row: &Row<'_>,
) -> Result<(), AllocError> {
    let found = outcome_of(rt, host, row)?;
    expect_same(rt, found.as_str(), row.4, row.0);
    Ok(())
}

/// Runs the programs one after another over maps of one number.
fn expect<R: AllocGlobal + Abort>(
    rt: &R,
    host: &mut OneTask,
    rows: &[Row<'_>],
) -> Result<(), Fail> {
    for row in rows {
        expect_row(rt, host, row)?;
    }
    Ok(())
}

/// The end of a run, and the number that it leaves in the map.
fn outcome(alloc: Global, ran: Option<Ending>, left: u64) -> Result<String, AllocError> {
    match ran {
        Some(Ending::Done(done)) => {
            format!(in alloc; "{} in {} steps, {left}", done.r0, done.steps)
        }
        Some(Ending::Stuck(slot)) => format!(in alloc; "stuck at {slot}, {left}"),
        None => format!(in alloc; "refused"),
    }
}

/// Runs, as init, a look-up in a map of 777 and then these lines.
fn expect_after<R: AllocGlobal + Abort>(rt: &R, rest: &str, wanted: &str) -> Result<(), Fail> {
    let text = format!(in rt.alloc(); "{LOOKUP}{rest}exit")?;
    expect_as_init(rt, Args::NONE, 777, text.as_str(), wanted)
}

fn expect_all_after<R: AllocGlobal + Abort>(rt: &R, rows: &[(&str, &str)]) -> Result<(), Fail> {
    for &(rest, wanted) in rows {
        expect_after(rt, rest, wanted)?;
    }
    Ok(())
}

fn expect_as_init<R: AllocGlobal + Abort>(
    rt: &R,
    arguments: Args,
    number: u64,
    text: &str,
    wanted: &str,
) -> Result<(), Fail> {
    let mut host = OneTask::new();
    expect(
        rt,
        &mut host,
        &[(text, Callback::Init, arguments, number, wanted)],
    )
}

const AFTER_A_LOOKUP: [(&str, &str); 6] = [
    // An element is no number to answer.
    ("", "stuck at 6, 777"),
    ("r0 = *(u64 *)(r0 + 0)\n", "777 in 7 steps, 777"),
    // The pointer comes back whole from the stack, and not where a number was written over it.
    (
        "*(u64 *)(r10 - 16) = r0\nr1 = *(u64 *)(r10 - 16)\nr0 = *(u64 *)(r1 + 0)\n",
        "777 in 9 steps, 777",
    ),
    (
        "*(u64 *)(r10 - 16) = r0\n*(u8 *)(r10 - 9) = 5\nr1 = *(u64 *)(r10 - 16)\n",
        "stuck at 8, 777",
    ),
    // A store changes its bytes alone, and past the element it is stuck.
    (
        "*(u16 *)(r0 + 2) = -1\nr0 = 0\n",
        "0 in 8 steps, 4294902537",
    ),
    ("*(u16 *)(r0 + 8) = -1\nr0 = 0\n", "stuck at 6, 777"),
];

#[test]
fn an_element_is_looked_up_and_spilled(rt: HostRuntime) -> Result<(), Fail> {
    expect_all_after(&rt, &AFTER_A_LOOKUP)
}

/// Additions to a pointer into the element in r0, and how each ends. The least byte of 777 is 9, and the next 3.
const ADDED: [(&str, &str); 14] = [
    // It stays in the element, or comes to its end.
    (
        "r1 = 1\nr0 += r1\nr0 = *(u8 *)(r0 + 0)\n",
        "3 in 9 steps, 777",
    ),
    (
        "r1 = 8\nr0 += r1\nr0 = *(u8 *)(r0 - 8)\n",
        "9 in 9 steps, 777",
    ),
    (
        "r1 = 8\nr0 += r1\nr0 = *(u8 *)(r0 + 0)\n",
        "stuck at 8, 777",
    ),
    // Not past its end, also in two steps; nor back, by a number that is above all offsets.
    ("r1 = 9\nr0 += r1\nr0 = 0\n", "stuck at 7, 777"),
    (
        "r0 += 4\nr1 = 4\nr0 += r1\nr0 = *(u8 *)(r0 - 7)\n",
        "3 in 10 steps, 777",
    ),
    ("r0 += 4\nr1 = 5\nr0 += r1\nr0 = 0\n", "stuck at 8, 777"),
    ("r0 += 4\nr1 = -4\nr0 += r1\nr0 = 0\n", "stuck at 8, 777"),
    // No other operation, no half of it, and no other order.
    ("r1 = 0\nr0 -= r1\nr0 = 0\n", "stuck at 7, 777"),
    ("r1 = 0\nw0 += w1\nr0 = 0\n", "stuck at 7, 777"),
    ("r1 = 0\nr1 += r0\nr0 = 0\n", "stuck at 7, 777"),
    // Neither to a pointer into something else, nor what is no number.
    ("r1 = 0\nr2 = r10\nr2 += r1\nr0 = 0\n", "stuck at 8, 777"),
    ("r1 = 0\nr2 = map 0\nr2 += r1\nr0 = 0\n", "stuck at 9, 777"),
    ("r0 += r0\nr0 = 0\n", "stuck at 6, 777"),
    ("r0 += r1\nr0 = 0\n", "stuck at 6, 777"),
];

#[test]
fn a_number_is_added_to_a_pointer_into_an_element(rt: HostRuntime) -> Result<(), Fail> {
    expect_all_after(&rt, &ADDED)
}

#[test]
fn keys_are_looked_up(rt: HostRuntime) -> Result<(), Fail> {
    let past = "*(u32 *)(r10 - 4) = 1\nr2 = r10\nr2 += -4\nr1 = map 0\ncall 1\nexit";
    expect_as_init(&rt, Args::NONE, 9, past, "0 in 6 steps, 9")?;
    let half = "*(u16 *)(r10 - 4) = 0\nr2 = r10\nr2 += -4\nr1 = map 0\ncall 1\nexit";
    expect_as_init(&rt, Args::NONE, 9, half, "stuck at 5, 9")
}

const NUMBERS: Args = Args {
    first: Arg::Num(1),
    second: Arg::Num(2),
    third: Arg::Num(3),
};

/// Runs, as init, a call, and then an answer of the register's number.
fn expect_after_a_call<R: AllocGlobal + Abort>(
    rt: &R,
    register: u64,
    wanted: &str,
) -> Result<(), Fail> {
    let text = format!(in rt.alloc(); "r4 = 1\nr5 = 1\nr6 = 7\ncall 5\nr0 = r{register}\nexit")?;
    expect_as_init(rt, NUMBERS, 9, text.as_str(), wanted)
}

#[test]
fn calls_leave_no_argument(rt: HostRuntime) -> Result<(), Fail> {
    for register in 1..=5 {
        expect_after_a_call(&rt, register, "stuck at 4, 9")?;
    }
    expect_after_a_call(&rt, 6, "7 in 6 steps, 9")
}

#[test]
fn fields_are_stored_to(rt: HostRuntime) -> Result<(), Fail> {
    let mut host = OneTask::new();
    let slice = "*(u64 *)(r1 + 8) = 7\nexit";
    let weight = "*(u32 *)(r1 + 4) = 7\nexit";
    expect(
        &rt,
        &mut host,
        &[
            (slice, Callback::Running, ONE, 9, "0 in 2 steps, 9"),
            (weight, Callback::Running, ONE, 9, "stuck at 0, 9"),
            // A queue is created in init alone, and no helper has the number 6.
            (INIT, Callback::Dispatch, ONE, 9, "stuck at 1, 9"),
            ("call 6\nexit", Callback::Init, ONE, 9, "stuck at 0, 9"),
        ],
    )?;
    expect_same(&rt, host.slice, 7, "slice");
    expect_same(&rt, host.weight, 50, "weight");
    assert!(&rt; host.called == None);
    Ok(())
}
