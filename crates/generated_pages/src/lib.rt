//! Generated pages, as input that needs no file: a shelf with one relation of them.
#![tactic(auto)]

mod generated;
mod shelf;

pub use shelf::generated_shelf;
