//! A shelf whose disks block reads until enough of them are under way.
//!
//! Each relation of a [`BlockingDisk`] has the same number of empty pages. The reads of a relation
//! that a [`ReadBarrier`] holds wait for each other, at all disks of the same [`BlockingShelf`]: none goes
//! on before so many of them are under way, and then all go on from then on. A read that waits longer than its
//! limit fails. So whoever has all the pages without a fault has made so many reads at the same time,
//! and a program that reads on fewer threads gets a fault.
//!
//! Contracts know of it what the traits say of a disk and a shelf that tell no contents.
#![tactic(auto)]

mod barrier;
mod disk;
mod shelf;

pub use barrier::ReadBarrier;
pub use disk::BlockingDisk;
pub use shelf::BlockingShelf;
