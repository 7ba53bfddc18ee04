//! The command `aioscan`: lists the pages of relation files, by several backends and I/O workers.
//!
//! The top call, `aioscan`, works over any shelf and any two sinks. Its contract says, over a shelf
//! that tells its contents, that the output grew by the listing which one thread's synchronous
//! reads give, up to the first block that is invalid, missing or unread; why each status comes; and
//! in which order the outside is called, as far as the outcome and the counts show it. Over a shelf
//! that does not tell, less is known, and the contract says how much.
//!
//! `program::run` is a run of the program: the top call over the files of the system.
//! `read_command` reads the words alone, for whoever wants to know what they ask for.
#![tactic(auto)]

mod by_map;
mod conclusion;
mod disks;
mod generated_scan;
mod lengths;
mod list_jobs;
pub mod program;
mod run;
mod scan;

pub use command_line::{Command, MapOption, Refusal, read_command};
pub use run::aioscan;
pub use run_report::{Line, Outcome, Report};
