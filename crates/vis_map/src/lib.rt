//! The visibility map of a relation: which of its blocks a scan may leave out.
//!
//! After `visibilitymap.c`. A map is seen as the list of the pages that were added to it, and
//! `block_bits` and `is_marked` are definitions over that list. `needed_pages` says how many pages
//! of a map have to be read, and `laws` what follows for the list of blocks that a scan by the map
//! asks for.
#![tactic(auto)]

pub mod laws;
mod map;
mod map_pages;

pub use map::{Skip, VisMap};
pub use map_pages::needed_pages;
