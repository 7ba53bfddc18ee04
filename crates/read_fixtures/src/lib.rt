//! What the tests of the methods share: reads of one block, the calls of their owner, and an executor
//! that answers each read whole.
//!
//! # What the contracts mean
//!
//! They say of reads what those of `aio_fixtures` say of any I/O.
#![tactic(auto)]

mod executor;
mod reads;

pub use executor::WholeExecutor;
pub use reads::{submit_read, take_and_reclaim};
