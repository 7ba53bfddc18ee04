//! The outside of a scan: disks with relations, shelves that open them, and sinks for text.
//!
//! [`Disk`], [`Shelf`] and [`Sink`] are what a scan may know of it. Each may tell its contents,
//! to the contracts alone: the bytes of the relations, of the files by their names, and what was
//! written. Where it does, a length is the told one, the pages of a read are the told ones, at
//! least one below the told length, and a write that is Ok appended all its bytes. Each counts
//! its faults, and a fault comes only where its count rose, so that a caller can show where a
//! fault of its own came from.
//!
//! [`SteadyShelf`] is in memory, never fails and tells all. Its own calls have exact clauses: how
//! many pages a read gives, what the log of reads then holds. [`FileShelf`] and [`StdSink`] are the
//! real files and streams, and tell nothing: what they give is the system's, and tests alone show
//! it. How the bytes of a file become pages, and where its faults go, is proved over any
//! [`ByteSource`](source::ByteSource) that tells its bytes.
#![tactic(auto)]

mod blocks;
mod disk;
mod fault;
mod file;
mod file_names;
mod file_relation;
mod opened_relations;
mod read_log;
mod segments;
mod shared_bytes;
mod shelf;
mod sink;
pub mod source;
pub mod source_relation;
mod std_sink;
mod steady;

pub use disk::Disk;
pub use fault::{DeviceFault, OpenFault, WriteFault};
pub use file::{FileDisk, FileShelf};
pub use file_names::have_distinct_names;
pub use read_log::ReadEntry;
pub use segments::SEGMENT_SIZE;
pub use shelf::Shelf;
pub use sink::Sink;
pub use std_sink::StdSink;
pub use steady::{SteadyDisk, SteadyShelf};
