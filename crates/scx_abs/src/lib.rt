//! The verifier's abstract state: kinds of registers, cells of the stack, and the effect of each
//! instruction on them.
//!
//! `start` gives the state in which a callback begins, `transfer` what flows on from an instruction,
//! or the first of its checks that fails, and `join` the least state that covers two. The rules are
//! sound: `rules_are_sound` says that where the checks pass no state that is stood for is stuck.
//! `calls_and_null_tests_are_sound` says so of calls of helpers and of tests for null, and
//! `plain_rules_are_sound` of all other instructions.
#![tactic(auto)]

mod arithmetic;
mod calls;
mod changes;
mod faults;
mod jumps;
mod kinds;
mod known;
mod laws;
mod memory;
mod offsets;
mod rules;
mod states;

pub use arithmetic::{extended_kind, map_kind, negated_kind, swapped_kind};
pub use calls::{called, key_size_at_hand, kind_of_map, map_at_hand, takes_shape};
pub use changes::{Change, Flow};
pub use faults::Why;
pub use jumps::{constant_compared, flow_of_jump};
pub use kinds::{CELL_BYTES, Cell, Held, Kind};
pub use known::Known;
pub use laws::{
    calls_and_null_tests_are_sound, joins_are_least, plain_rules_are_sound, rules_are_monotone,
    rules_are_sound, states_are_proper,
};
pub use memory::{Area, area_of};
pub use rules::{Next, assigned, ended, transfer};
pub use scx_isa::REGISTERS;
pub use scx_vm::Context;
pub use states::{AbsState, CELLS, join, start};
