//! Which reads a run makes, and by whom: tests of `aioscan`, and no code besides.
//!
//! A row is one call of `aioscan` over disks in memory. The log of its reads, the counts of its
//! report or the reads that are under way together are compared with what is to come, and what it
//! lists beside them. The rows know of `aioscan_cmd` what every caller knows, so its proof is not
//! made again beside theirs.
#![tactic(auto)]

#[cfg(test)]
mod blocked_reads;
#[cfg(test)]
mod io_counts;
#[cfg(test)]
mod reads;
#[cfg(test)]
mod shares_out;
