//! Scans by rounds and runs: several backends list blocks of relations beside I/O workers, all over one
//! table of handles, one pool of frames and one submission queue.
//!
//! A [`Scan`] is opened over a disk for each backend and each worker. Its [`Scan::round`] takes up
//! to one [`Job`] for each backend: each reads its blocks through a read stream, appends the text
//! of their pages that the settings choose, and counts them. With
//! `MethodKind::Sync` each backend executes its own I/Os; with `MethodKind::Worker` the workers do,
//! and a backend executes what no worker has claimed when it would wait for it. [`Scan::run`] lists
//! all jobs of a [`JobSource`] by shares; its servers and workers live through the run.
//! [`Scan::finish`] closes the table, and gives the disks back.
//!
//! With `MethodKind::Ring` it is a [`RingScan`], which has no workers: a backend that would wait
//! executes its own I/O by a ring, together with what it takes from the queue.
//!
//! # What the contracts mean
//!
//! In whatever way backends and workers interleave, after a round each job's text, sums and ending
//! are those of answers to its blocks (`IsJobAnswer` of heap_scan), by the text of a page that the
//! settings choose (`page_format` of scan_settings): where the contents are told, those of the pages
//! that one thread's synchronous reads give, up to the first page that is invalid, missing or
//! unread. A job ends in Unread only where a read of its backend's own stream has failed, whose
//! mark stands in that actor's list; want of memory leaves the text and the sums of the first
//! pages. At the end each I/O was one read of the disk of the actor that executed it, each failed
//! one a fault of it, and no more jobs ended in Unread than the disks counted faults.
#![tactic(auto)]

mod backend;
mod beside;
mod calls;
mod counts;
mod disk_actor;
mod exchange;
mod finish;
mod lead;
mod lent;
mod memory;
mod open;
mod reading;
mod ring;
mod rounds;
mod run;
mod run_memory;
mod run_shares;
mod scan;
mod servers;
mod share;
mod shared;
mod worker;

pub use read_stream::end_borrow;
pub use scan::{RingScan, Scan};
pub use scan_jobs::{Ending, Job, JobSource, MapFilter};
pub use scan_settings::{MethodKind, PageText, ScanSettings};
