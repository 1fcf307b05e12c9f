//! The program `scx_tests_bench`, which does one piece of work over and over, so that `bench/figures.py` can
//! count what it takes: `scx_tests_bench decode|encode|run|verify|dis FILE TIMES` on a file of raw slots,
//! `scx_tests_bench asm FILE TIMES` on a text, `scx_tests_bench maps - TIMES` on an array map, `scx_tests_bench
//! verify_callbacks|run_callbacks - TIMES` on the callbacks of scx_simple, `scx_tests_bench run_counting - TIMES`
//! on a program that counts in a map, and `scx_tests_bench queues_fifo|queues_vtime TASKS TIMES` on a queue. It
//! prints a number that depends on all of the work. What machines, files and traces take is counted in
//! `scxsim` itself.
#![tactic(auto)]

mod callbacks;
mod maps;
mod programs;
mod queues;

use crate::callbacks::{run_callbacks, run_counting, verify_callbacks};
use crate::maps::count_times;
use crate::programs::{
    assemble_times, decode_times, disassemble_times, encode_times, run_times, verify_init_times,
};
use crate::queues::{Order, go_round};
use std::alloc::Global;
use std::fs::File;
use std::io::{Read, Write};
use std::process::ExitCode;
use std::rt::{Env, Files};
use std::{env, io, str};

/// The result of the work; `None` if it can't be done.
type Sum = Option<u64>;

fn main(rt: HostRuntime) -> ExitCode {
    let Some(sum) = bench(&rt) else {
        return ExitCode::FAILURE;
    };
    match writeln!(io::writer(&rt), "{sum}") {
        Ok(()) => ExitCode::SUCCESS,
        Err(_) => ExitCode::FAILURE,
    }
}

/// Does the work that the process's words name.
fn bench<R: AllocGlobal + Env + Files>(rt: &R) -> Sum {
    let words: Vec<String> = env::args(rt).ok()?.collect(rt.alloc()).ok()?;
    work_of(rt, words.as_slice())
}

fn work_of<R: AllocGlobal + Files>(rt: &R, words: &[String]) -> Sum {
    let [_, work, on, times] = words else {
        return None;
    };
    let times = times.as_str().parse().ok()?;
    work_named(rt, work.as_str(), on.as_str(), times)
}

/// Does the work of that name `times` times.
fn work_named<R: AllocGlobal + Files>(rt: &R, work: &str, on: &str, times: u64) -> Sum {
    match work {
        "maps" => count_times(rt.alloc(), times),
        "verify_callbacks" => verify_callbacks(rt.alloc(), times),
        "run_callbacks" => run_callbacks(rt.alloc(), times),
        "run_counting" => run_counting(rt.alloc(), times),
        "queues_fifo" => go_round(rt.alloc(), Order::Fifo, on, times),
        "queues_vtime" => go_round(rt.alloc(), Order::Vtime, on, times),
        _ => on_file(rt, work, on, times),
    }
}

/// Does the work of that name `times` times on a file.
fn on_file<R: AllocGlobal + Files>(rt: &R, work: &str, path: &str, times: u64) -> Sum {
    let bytes = read(rt, path)?;
    on_bytes(rt.alloc(), work, bytes.as_slice(), times)
}

fn read<R: AllocGlobal + Files>(rt: &R, path: &str) -> Option<Vec<u8>> {
    let mut bytes = Vec::new(rt.alloc());
    File::open(rt, path).ok()?.read_to_end(&mut bytes).ok()?;
    Some(bytes)
}

fn on_bytes(alloc: Global, work: &str, bytes: &[u8], times: u64) -> Sum {
    match work {
        "decode" => decode_times(alloc, bytes, times),
        "encode" => encode_times(alloc, bytes, times),
        "run" => run_times(alloc, bytes, times),
        "verify" => verify_init_times(alloc, bytes, times),
        "asm" => assemble_times(alloc, text(bytes)?, times),
        "dis" => disassemble_times(alloc, bytes, times),
        _ => None,
    }
}

fn text(bytes: &[u8]) -> Option<&str> {
    str::from_utf8(bytes).ok()
}
