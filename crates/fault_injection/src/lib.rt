//! Faults of the outside, injected where a test wants them: shelves, disks and sinks in memory that
//! fail where a list says so.
//!
//! [`MemShelf`] and [`MemDisk`] are a shelf and a disk of aio_disk that never fail, with a
//! [`Script`] of faults and short answers. [`MemSink`] keeps what is written. All tell what they
//! hold, and their own calls have exact clauses: which call fails, how many pages a read gives,
//! what the log of reads then holds.
#![tactic(auto)]

mod mem_disk;
mod mem_shelf;
mod mem_sink;
mod script;

pub use mem_disk::MemDisk;
pub use mem_shelf::MemShelf;
pub use mem_sink::MemSink;
pub use script::Script;
