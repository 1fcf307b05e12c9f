//! Examples that tests and benchmarks share: the callbacks of scx_simple as text, a host of one task, and numbers that
//! look random. Its own tests are of array maps.
#![tactic(auto)]

#[cfg(test)]
mod maps;
mod one_task;
mod random;
#[cfg(test)]
mod same;
mod simple;

pub use one_task::OneTask;
pub use random::xorshift;
pub use simple::{DISPATCH, INIT, WITHOUT_SELECT_CPU};
