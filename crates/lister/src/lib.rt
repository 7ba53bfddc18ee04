//! The job source of a listing: it cuts jobs from what is asked for, and writes the texts and the
//! warnings of those that came back.
//!
//! A [`Lister`] is what a run of scan_rounds is given. It needs the jobs (scan_jobs), the blocks
//! that are asked for (request_list) and the outcome of a run (run_report), and no scan.
//!
//! # What the contracts mean
//!
//! From one state to a later one it has written the listing of the blocks between the two, by the
//! answers to their jobs, up to the first job that ended in a fault (`PreservesListing`).
#![tactic(auto)]

mod lister;

pub use lister::{Lister, outcome_of};
