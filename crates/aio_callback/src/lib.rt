//! Records of reads, and how callbacks complete them.
//!
//! A [`ReadIo`] is what lies in the slot of a handle: the blocks that are to be read, the pages that
//! they are read into, and the callbacks that are run once the read has ended
//! (`pgaio_io_call_complete_shared` and `pgaio_io_call_complete_local` of `aio_callback.c`).
//!
//! # What the contracts mean
//!
//! Contracts see a record as a `ReadIoView`. A record that *fits* what is told of the relations and
//! has ended is *completed*: its result and its pages are what its callbacks, run from the last to
//! the first, make of some raw answer and of the pages that were read, and its good pages are what
//! their marks say. read_callbacks says what each callback does.
#![tactic(auto)]

pub mod laws;
mod record;

pub use read_callbacks::{CallbackId, Counts, NoPlaces, Places, Raw};
pub use record::{ReadIo, TooMany};
