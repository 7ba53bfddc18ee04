//! Read streams: the pages of the blocks that a source names, one after the other, read ahead
//! (`read_stream.c` and `read_stream.h` of PostgreSQL).
//!
//! A [`ReadStream`] takes blocks from its source, combines neighbours into runs, reads each run by
//! an I/O handle of its actor, takes pages that are in the pool from there, and joins reads of
//! others. It gives the pages in the source's order. All memory is taken by [`Desk::open`]; a desk
//! serves one stream after the other.
//!
//! # What the contracts mean
//!
//! They speak of a stream as `stream_view` shows it: what it reads, how far it has come, and its
//! actor. The answer of each call of [`ReadStream::next`] is what one thread's synchronous reads of
//! the source's list give next (`IsNext` of page_check, over the list as it was at the opening),
//! read by the rules of its [`Settings`]. Or it is `Unread` at the block where a read of this
//! stream has failed, whose record the stream keeps and whose mark stands in the actor's list. An
//! ending is given again by each later call. After [`ReadStream::close`] no token of the stream is
//! out and its desk is free. When a stream looks ahead, what it combines and which reads it makes
//! by its own thread is no part of any contract.
#![tactic(auto)]

mod acquiring;
mod advance;
mod at_hand;
mod blocks;
mod desk;
mod front;
mod io_context;
mod issuing;
mod loan;
mod look_ahead;
mod parts;
mod queue;
mod reached;
mod reads;
mod ring;
mod scope;
mod stream;
mod taking_in;

pub use desk::{Desk, Settings};
pub use loan::end_borrow;
pub use stream::ReadStream;
pub use stream_answer::Next;
