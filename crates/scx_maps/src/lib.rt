//! Maps of BPF programs (RFC 9669, section 5.4.1): a map is a fixed number of elements, numbered from 0,
//! each a value of a fixed number of bytes. Elements of an array are found by their numbers; hashes,
//! queues, stacks and per-CPU arrays keep beside them which element is in use for what.
//!
//! `MapDefs` is the list of the shapes of a policy's maps, within this host's limits. `Maps` holds
//! their values. In contracts it is the list of maps, each the list of its elements, each the list of
//! its bytes; a call reads or changes one element. All memory is taken as maps are made. Each call takes
//! constant time, and an update of a hash does so on average, as its index of keys is made anew after
//! as many new keys as the map has elements.
//!
//! A number in an element of map 0 grows by 1, if its bytes are there, in `crates/scx_tests_bench/src/maps.rt`:
//!
//! ```rust
//! if maps.count() == 0 || !maps.lookup(0, index) || maps.value(0, index).len() < 16 {
//!     return None;
//! }
//! let number = maps.load(0, index, 8, Size::DoubleWord);
//! maps.store(0, index, 8, Size::DoubleWord, number.wrapping_add(1));
//! Some(number)
//! ```
#![tactic(auto)]

mod bad_shape;
mod codes;
mod defs;
mod directory;
mod keys;
mod laws;
mod layout;
mod lines;
mod maps;
mod shape;
mod values;

pub use bad_shape::BadShape;
pub use defs::{MAX_BYTES, MAX_MAPS, MapDefs};
pub use laws::{keys_have_values, lines_are_lists};
pub use maps::Maps;
pub use scx_isa_semantics::{KeySize, MapKind, Size};
pub use shape::{MAX_ENTRIES, MAX_VALUE_SIZE, Shape};
