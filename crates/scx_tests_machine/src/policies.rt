//! Policies to try. Each has one map, of one element of eight bytes.

use scx_asm::assemble;
use scx_isa::Callback;
use scx_maps::{MapDefs, MapKind, Shape};
use scx_sched::{Callbacks, Policy};
use scx_tests_examples::{DISPATCH, INIT};
use scx_verify::{Verified, verify};
use scx_weights::{Group, Tree};
use std::process::Abort;

/// Inserts into queue 0, with a slice of 2 ms.
pub(crate) const SHORT_SLICES: &str = "r4 = r2\nr2 = 0\nr3 = 2000000\ncall 1002\nexit";

pub(crate) fn defs(rt: &impl Abort) -> MapDefs {
    let shape = Shape {
        entries: 1,
        value_size: 8,
        kind: MapKind::Array,
    };
    MapDefs::new(&[shape]).expect(rt, "the shape is within the limits")
}

/// The program of the text, verified as that callback.
pub(crate) fn program<R: AllocGlobal + Abort>(rt: &R, callback: Callback, text: &str) -> Verified {
    let program = assemble(rt.alloc(), text).expect(rt, "the text is a program");
    verify(rt.alloc(), program, callback, &defs(rt)).expect(rt, "the program is safe")
}

/// The callbacks with these texts, of several for one callback with the last.
pub(crate) fn callbacks<R: AllocGlobal + Abort>(rt: &R, texts: &[(Callback, &str)]) -> Callbacks {
    let mut callbacks = Callbacks::none();
    for &(callback, text) in texts {
        callbacks.set(callback, Some(program(rt, callback, text)));
    }
    callbacks
}

/// The policy whose callbacks have these texts.
pub(crate) fn policy<R: AllocGlobal + Abort>(rt: &R, texts: &[(Callback, &str)]) -> Policy {
    policy_within(rt, 30_000, texts)
}

/// The policy whose callbacks have these texts, under which a task may wait `timeout_ms` milliseconds.
pub(crate) fn policy_within<R: AllocGlobal + Abort>(
    rt: &R,
    timeout_ms: u32,
    texts: &[(Callback, &str)],
) -> Policy {
    let policy = Policy::new(defs(rt), timeout_ms, callbacks(rt, texts));
    policy.expect(rt, "each program is for its place")
}

/// Tasks wait in queue 0, in order of arrival, and run for 2 ms.
pub(crate) const TWO_MILLISECONDS: &[(Callback, &str)] = &[
    (Callback::Init, INIT),
    (Callback::Enqueue, SHORT_SLICES),
    (Callback::Dispatch, DISPATCH),
];

/// Tasks in one group.
pub(crate) fn tree<R: AllocGlobal + Abort>(rt: &R, tasks: &[u32]) -> Tree {
    Tree::new(rt.alloc(), &[Group::new(None, 100)], tasks).expect(rt, "the tasks are in the group")
}
