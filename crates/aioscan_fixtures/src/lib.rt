//! Runs of `aioscan` over files in memory, rows of them in text, what they show and read.
#![tactic(auto)]

pub mod rows;
pub mod runs;
