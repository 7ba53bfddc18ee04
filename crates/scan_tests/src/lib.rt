//! Tests of scans: rounds of jobs over disks in memory, and no code besides.
//!
//! They know of `scan_rounds` what every caller knows, so its proof is not made again beneath
//! theirs.
#![tactic(auto)]

#[cfg(test)]
mod blocked_reads;
#[cfg(test)]
mod damaged_pages;
#[cfg(test)]
mod faults;
#[cfg(test)]
mod helpers;
#[cfg(test)]
mod listings;
#[cfg(test)]
mod maps;
#[cfg(test)]
mod page_texts;
#[cfg(test)]
mod rings;
