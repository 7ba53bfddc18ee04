//! I/Os that are executed in place: the sync method (`method_sync.c` of PostgreSQL) and the runner
//! that it, a waiter and the workers execute with.
//!
//! # What the contracts mean
//!
//! A [`Runner`] makes one read of its disk for each I/O that it is handed, runs the shared
//! callbacks, tells its places each block, and sends the record home. What it does to its actor's
//! list is exact: one Io mark, with the class of the disk's answer, and one Shared mark. It fails
//! an I/O only where the disk counted a fault. [`SyncMethod`] executes each I/O as it begins, where
//! nobody else has claimed it.
#![tactic(auto)]

mod method;
mod runner;

pub use method::SyncMethod;
pub use runner::Runner;
