//! What a run is to list, what it has listed, and what it says of itself: its outcome, the status and
//! the lines of the error stream, and its totals.
#![tactic(auto)]

mod error_line;
mod report;

pub use error_line::{write_end, write_warnings};
pub use report::{Line, Numbers, Outcome, Report, ReportedEnd, RunEnd, has_totals};
