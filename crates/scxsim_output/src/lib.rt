//! Where a program's output goes: `Out`, which counts the writes that failed, one of std's writers as an `Out`, and
//! `Text`, a text in memory that is put together piece by piece.
//!
//! No piece of a `Text` answers whether there was memory for it: the text itself keeps that, and tells it at its end.
#![tactic(auto)]

mod blocks;
mod counted;
mod out;
mod short;
mod text;

pub use blocks::Blocks;
pub use counted::Counted;
pub use out::{Failed, Out, write_all, write_named, write_parts};
pub use short::{SHORT, Short, put_byte, put_bytes, put_name};
pub use text::Text;
