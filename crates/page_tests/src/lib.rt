//! Tests of what a page holds and how it is listed: of `page_check`, `heap_scan`, `heap_tuple` and
//! `vis_map`, and no code besides.
//!
//! What is to come is written out beside each page, or made by a plain rule.
#![tactic(auto)]

#[cfg(test)]
mod chains;
#[cfg(test)]
mod checksums;
#[cfg(test)]
mod maps;
#[cfg(test)]
mod pages;
#[cfg(test)]
mod sums;
#[cfg(test)]
mod texts;
#[cfg(test)]
mod tuples;
#[cfg(test)]
mod warnings;
