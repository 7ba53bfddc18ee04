//! The plan of a read stream: how far it looks ahead, and which neighbouring blocks it reads by one
//! I/O.
//!
//! After the look-ahead distance and the pending read of PostgreSQL's `read_stream.h` and
//! `read_stream.c`. The contract says what each call does to the numbers of the plan. Of its runs
//! it says that, whatever was offered and handed out before, the runs handed out and the pending
//! one are the blocks that were offered, in order, and no block of a run but its first is a
//! multiple of the segment size; and that a run is flushed only where it has `combine` blocks, or
//! the block offered is not its neighbour or is a multiple of the segment size. No call takes
//! memory, and each takes constant time.
#![tactic(auto)]

mod plan;
mod runs;

pub use plan::Plan;
pub use runs::{Offer, Run};
