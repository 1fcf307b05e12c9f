//! The command line of the program `scxsim`: its commands and their help, and the request of an invocation, read by
//! `clap`.
#![tactic(auto)]

mod forms;
mod requests;
mod words;

pub use requests::{Account, Part, PolicyCommand, ProgramCommand, Request};
pub use words::read_words;
