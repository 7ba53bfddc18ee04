//! Rows of runs in text: their files, and what is to come; and a plain lister to compare runs with.
#![tactic(auto)]

pub mod files;
pub mod listings;
pub mod plain_lister;
pub mod scenes;
