//! The pages of a relation, one after the other, in one call: a facade over read streams.
//!
//! A caller writes a [`PageConsumer`], opens a disk, and calls [`for_each_page`] with a source of
//! blocks. The table of handles, the pool, the desk, the method and the stream are made inside.
//!
//! # What the contracts mean
//!
//! What a consumer `holds` is a relation between it and a list of pages, each with its block and
//! its mark. After a call it holds some pages, and `PagesTaken` says of these that they and the
//! ending are what synchronous reads of the blocks may answer (`IsAnswer` of page_check). Where the
//! disk tells its contents, the pages are exactly those. `Ended::Unread` comes only where a read of
//! the disk has failed.
#![tactic(auto)]

mod consumer;
mod for_each;
mod memory;
mod open_file;
mod reader;
mod reading;
mod settings;

pub use consumer::{Ended, PageConsumer};
pub use for_each::{for_each_page, for_each_page_with};
pub use open_file::open_relation;
pub use reader::PageReader;
pub use settings::ReaderSettings;
