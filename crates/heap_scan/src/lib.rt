//! The text that lists a page: a line for the page and one for each of its line pointers.
//!
//! `page_text` appends exactly the definition `page_text_of`, which is stated over the list of line
//! pointers and decimal numbers, and two laws of that text stand beside it. `listing` is the text
//! of many pages, by this or another text of a page. `damaged_text` appends the line of a page that
//! is given although it is not valid. `warning_text` appends the line that warns of a page given as
//! zeros, `warnings_of` are those of many pages. `tally` adds a page to sums over pages, the
//! definition `sums_with_page`. What writes the pieces of a line is public, for texts that say more
//! of a page.
#![tactic(auto)]

pub mod backward;
pub mod laws;
mod lines;
mod numbers;
mod sums;
mod text;
mod warning;

pub use lines::{ITEM_ROOM, PAGE_ROOM, put_item, put_page_line};
pub use sums::{PageSums, tally};
pub use text::{damaged_text, page_text};
pub use warning::warning_text;
