//! Tests of the faults of pages and of their lines, and no code besides.
//!
//! Expected lines follow from the rules by hand: each row is a page that is good but for what its
//! name says.
#![tactic(auto)]

#[cfg(test)]
mod headers;
#[cfg(test)]
mod items;
#[cfg(test)]
mod made;
#[cfg(test)]
mod misplaced;
#[cfg(test)]
mod overlaps;
#[cfg(test)]
mod tuples;
