//! What a run lists and says: tests of `aioscan`, and no code besides.
//!
//! A row is one call of `aioscan` over disks in memory. What it writes to both streams, its status
//! and, in some rows, its reads and counts are compared with what is to come. The rows know of
//! `aioscan_cmd` what every caller knows, so its proof is not made again beside theirs.
#![tactic(auto)]

#[cfg(test)]
mod checksums;
#[cfg(test)]
mod cut_outputs;
#[cfg(test)]
mod failing;
#[cfg(test)]
mod one_file_runs;
#[cfg(test)]
mod segments;
#[cfg(test)]
mod statuses;
#[cfg(test)]
mod untold_contents;
