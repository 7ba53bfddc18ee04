//! I/Os that are executed in groups, by a ring that completes them in an order of its own (the
//! part of `method_io_uring.c` of PostgreSQL that does not depend on the kernel).
//!
//! No ring of the kernel is used: there is no io_uring. The one ring here is [`SimRing`], which
//! simulates one over a disk: it keeps the reads that were submitted, completes them in an order
//! that is handed in, and makes each as one read of the disk when it is picked.
//!
//! A [`Ring`] takes up to 8 reads and completes them in any order; a [`RingRunner`] is an executor
//! over a ring. It is handed one claimed I/O, takes up to 7 references from the submission queue,
//! claims those that nobody has claimed, submits all their reads to the ring, and completes each
//! where the ring picks it. As in PostgreSQL, the backend that processes a completion need not be
//! the one that has issued the I/O: it is the one that has claimed it.
//!
//! # What the contracts mean
//!
//! Whatever order the ring picks, each completion ends the I/O whose number it carries. The actor
//! that executes makes the Claimed, Io and Shared marks of each, whoever issued it. A read is
//! taken as failed only where the ring counted a fault, and the ring's reads rise by as many as
//! there are I/Os. That a reference of another backend is ever popped is no part of any contract.
#![tactic(auto)]

mod finish;
mod gather;
mod group;
mod listed;
mod ring;
mod room;
mod runner;
mod sim_ring;

pub use ring::{Entry, Ring};
pub use room::RingRoom;
pub use runner::RingRunner;
pub use sim_ring::{IdleRing, SimRing};
