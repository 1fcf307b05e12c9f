//! The fault of a line of assembler text: where in the line it is, and what to write instead. `asm` refuses the line
//! by its number and one name; people want to know more.
#![tactic(auto)]

mod advice;
mod calls;
mod conditions;
mod items;
mod labels;
mod memory;
mod mnemonics;
mod ranges;
mod registers;
mod scan;
mod spots;
mod values;
mod wrong;

pub use advice::{Advice, advice_on};
