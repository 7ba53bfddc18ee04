//! The blocks that a command asks for: the relations that it names, and their blocks, cut into parts
//! of at most 64.
#![tactic(auto)]

mod cutter;
mod relations;

pub use cutter::{Cutter, JobRange, ResolvedCommand};
pub use relations::Relations;
