//! The headers of a page's heap tuples and their update chains, as text.
//!
//! `tuple` and `step` are the definitions `tuple_of` and `step_of`, and `tuples_text` appends
//! exactly `tuples_text_of`: what `heap_scan` lists of the page, a line for each tuple's header,
//! and how many update chains there are and how long the longest is.
#![tactic(auto)]

mod chains;
mod header;
mod lines;
mod steps;
mod text;

pub use header::{TupleHeader, read_header, tuple};
pub use steps::step;
pub use text::tuples_text;
