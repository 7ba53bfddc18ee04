//! What a read stream answers: a page that its source's block has, or an ending.
//!
//! [`Next`] is the answer of read_stream, in a crate of its own. So what only takes answers stands
//! on no handle, no pool and no stream.
//!
//! # What the contracts mean
//!
//! `synchronous_answer` gives an answer in the words of one thread's synchronous reads (`Next` of
//! page_check's `IsAnswer`): the page of an entry, or how the reads stop.
#![tactic(auto)]

mod answer;

pub use answer::Next;
