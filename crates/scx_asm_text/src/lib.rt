//! The text of BPF instructions, in the dialect that clang and llvm-objdump print: tokens, the items that
//! lines hold, the canonical text of an instruction, and the names of helpers and fields.
#![tactic(auto)]

mod host_names;
mod items;
mod laws;
mod lexer;
mod operands;
mod printing;
mod statements;
mod symbols;
mod words;

pub use host_names::{field_name, helper_name};
pub use items::{Item, Jump, Literal, Statement, Target, WrittenOperand};
pub use laws::longest_token_is_read;
pub use lexer::{Token, tokens};
pub use printing::{Canonical, Line};
pub use statements::item_of;
pub use symbols::Symbol;
