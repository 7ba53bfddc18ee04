//! Pages of a relation file: their fields, their check, and what reading them gives.
//!
//! A page is a list of 8192 bytes. `check` is the definition `verdict_of`, `header`, `count` and
//! `line_pointer` are `header_of`, `line_pointer_count` and `line_pointer_of`, each after
//! `bufpage.h` and `itemid.h`. `specs/` also has the words that all crates above speak in: `Told`,
//! the contents of the relations; `SynchronousAnswer`, what one thread's reads give for a list of
//! blocks; and `IsAnswer`, what a scan may have answered so far.
#![tactic(auto)]

mod checksum;
mod fields;
pub mod laws;
mod page;
mod rules;
mod verdict;
mod world;

pub use checksum::{check_as, page_checksum};
pub use fields::{
    Kind, LinePointer, PageHeader, count, header, line_pointer, line_pointer_at, read_u16, read_u32,
};
pub use page::{PAGE_SIZE, Page, split_bytes};
pub use rules::{DamagedPages, PageMark, PageRules};
pub use verdict::{Verdict, check};
pub use world::World;
