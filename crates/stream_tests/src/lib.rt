//! Streams over disks in memory: tests of `read_stream`, and no code besides.
//!
//! A row is one stream. What it answers, what its disk reads and how many I/Os it takes in are
//! compared with what is to come. The rows know of `read_stream` what every caller knows, so its
//! proof is not made again beside theirs.
#![tactic(auto)]

#[cfg(test)]
mod batches;
#[cfg(test)]
mod checksums;
#[cfg(test)]
mod damaged;
#[cfg(test)]
mod distances;
#[cfg(test)]
mod faults;
#[cfg(test)]
mod helpers;
#[cfg(test)]
mod late_workers;
#[cfg(test)]
mod pauses;
#[cfg(test)]
mod pool;
#[cfg(test)]
mod random;
#[cfg(test)]
mod runs;
#[cfg(test)]
mod stream_by_ring;
