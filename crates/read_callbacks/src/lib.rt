//! The completion callbacks of a read.
//!
//! After `aio_callback.c`, `md_readv_complete` of `md.c` and `buffer_readv_complete` of `bufmgr.c`.
//! A read names its callbacks by [`CallbackId`]s. [`run_chain`] runs them over the [`Raw`] answer
//! and the pages that were read. [`run_local`] is what its owner counts afterwards. [`Places`] are
//! where its good pages go. No call here knows a handle.
//!
//! # What the contracts mean
//!
//! Result, pages and marks are those of `chain_result`: what the callbacks make of the answer, from
//! the last registered to the first. `specs/Chain.antt` says what each of them does, and
//! `specs/GoodPages.antt` what is held of a block by its mark.
#![tactic(auto)]

mod bad_pages;
mod callback_counts;
mod chain;
mod places;

pub use callback_counts::{Counts, run_local};
pub use chain::{CallbackId, Raw, first_result, page_count, run_chain, verifies_pages};
pub use places::{NoPlaces, Places};
