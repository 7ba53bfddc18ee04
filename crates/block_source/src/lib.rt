//! Sources of blocks: what a read stream asks for the next block to read.
//!
//! After the block number callback of PostgreSQL's `read_stream.h`. The contract of a source is the
//! list of blocks that it has left, each with data of the caller's (`per_buffer_data` there).
//! `next` takes the first element off that list, and answers `None` exactly where it is empty. No
//! call takes memory.
#![tactic(auto)]

mod consecutive;
mod filters;
mod lists;
mod source;
mod strides;

pub use consecutive::Range;
pub use filters::{BlockTest, Filtered};
pub use lists::Listed;
pub use source::BlockSource;
pub use strides::Stepped;
