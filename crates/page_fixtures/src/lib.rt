//! Pages for tests and examples, made from what their bytes are, and the files and shelves in
//! memory that tests read them from.
#![tactic(auto)]

pub mod checksums;
pub mod files;
pub mod pages;
