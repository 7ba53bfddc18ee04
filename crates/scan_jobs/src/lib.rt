//! What a scan lists, job by job, and what becomes of the pages of its jobs.
//!
//! A [`Job`] asks for some blocks of a relation. A [`JobSource`] gives the jobs of a run and takes
//! them back. [`neighbouring_jobs`] says which jobs one stream can read. [`UnskippedBlocks`] gives
//! a stream their blocks, without those that a [`MapFilter`] leaves out. A [`Consumer`] takes what
//! the stream answers: a [`Listing`] puts each page into its job, as text and as sums, and
//! [`MapPages`] adds it to a visibility map.
//!
//! No stream, no handle and no thread stands here: what reads the blocks stands above.
//!
//! # What the contracts mean
//!
//! A job is listed where its text, its warnings, its sums and its ending are those of answers to
//! its blocks (`JobIsListed`, by `IsJobAnswer` of heap_scan). A consumer says what it holds of the
//! pages that it has taken. Each page that it takes stands behind those before (`AnswerConsumed`).
#![tactic(auto)]

mod consumer;
mod job;
mod job_source;
mod listing;
mod map_filter;
mod map_pages;
mod neighbours;
mod source;

pub use consumer::Consumer;
pub use job::{Ending, Job};
pub use job_source::JobSource;
pub use listing::{Listing, end_jobs};
pub use map_filter::MapFilter;
pub use map_pages::MapPages;
pub use neighbours::neighbouring_jobs;
pub use source::{Blocks, UnskippedBlocks};
