//! I/Os that workers execute: the submission queue, the method that pushes, and the worker's loop
//! (`method_worker.c` of PostgreSQL).
//!
//! A backend that has submitted an I/O pushes its reference into a [`SubmitQueue`] of 64 entries;
//! workers pop references, claim the I/Os and execute them. Where the queue is full, the backend
//! executes the I/O itself, as in PostgreSQL. The queue has no lock: the entries stand in a ring,
//! and one word says whether it is closed.
//!
//! # What the contracts mean
//!
//! Contracts see a [`QueueSeat`] as its lists: what it has pushed, what it has popped, and which
//! closing words it has read. Whatever calls are in the middle, each reference was pushed as often
//! over all seats as it was popped over all seats and stands in the queue, and the closing word
//! says "closed" only where some seat has closed the queue since it was last opened.
//! No call says more of what stands in a queue of several seats; in a queue of one seat its lists
//! tell how many entries there are. That a reference is ever popped, and that a worker that sleeps
//! is woken, is no part of any contract.
#![tactic(auto)]

mod idle_workers;
pub mod laws;
mod log;
mod method;
mod queue;
mod rule;
mod words;
mod worker;

pub use method::WorkerMethod;
pub use queue::{Pop, QueueFull, QueueSeat, SubmitQueue};
pub use worker::work;
