//! The command line: what its words ask for, or that they are no command.
#![tactic(auto)]

mod words;

pub use words::{Command, MapOption, Refusal, read_command};
