//! The faults of a page: what a check finds wrong with it.
//!
//! `faults` appends exactly the definition `faults_of`, which says for each rule what it means, and
//! `faults_text` the lines that a check prints of them, `faults_text_of`. Any 8192 bytes have a
//! list of faults, also at random.
#![tactic(auto)]

mod fault;
mod good_items;
mod header;
mod items;
mod lines;
mod options;
mod page;
mod places;
mod report;
mod text;
mod tuples;
mod witnesses;

pub use fault::Fault;
pub use header::lsn;
pub use options::{CheckOptions, Lsn};
pub use page::faults;
pub use text::faults_text;
