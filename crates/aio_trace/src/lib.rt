//! What a run of handles left: the line of its totals, and a checker of its events.
//!
//! `totals_text` appends exactly the line of a closed table's totals, the definition `totals_line`;
//! `numbers_text` is that line for numbers that were kept.
//! `replay` makes the events of one given run, in order, on a machine of handles, and answers with
//! the machine after them, or with the first event that the machine does not allow.
#![tactic(auto)]

mod replays;
mod text;

pub use replays::{ReplayAnswer, replay};
pub use text::{numbers_text, totals_text};
