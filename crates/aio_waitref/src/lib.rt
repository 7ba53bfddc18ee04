//! Waiting for an I/O that anybody may execute (`pgaio_wref_wait` and `pgaio_io_wait` in `aio.c`
//! of PostgreSQL).
//!
//! With I/O workers, PostgreSQL's waiter sleeps on the handle until a worker has completed the I/O.
//! A waiter here first tries to claim the I/O. Where it wins the claim, it executes the I/O itself;
//! where it does not, it rests until the I/O is done. So an I/O that no runner has come to never
//! keeps its owner waiting.
//!
//! # What the contracts mean
//!
//! Once a wait has returned, the actor has seen the incarnation done: its handle stood at
//! CompletedShared of that generation, or later. While it waited, the actor took up incarnations,
//! which may be none, and of each its list has the claim, the execution and the completion; it
//! made no other event. The executor's count of reads rose by one for each, up to 2^64 - 1. An
//! owner that waits for its own I/O also gets its record, ended as the I/O was.
//!
//! That a wait returns is no part of it: it rests for as long as the actor that has claimed the I/O
//! does not complete it, and forever where the reference is of a generation that never comes.
#![tactic(auto)]

mod own_io;
mod waits;

pub use own_io::wait_own;
pub use waits::wait;
