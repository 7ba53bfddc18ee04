//! Tests of the records of reads and of their callbacks, and no code besides.
//!
//! They know of `aio_callback` what every caller knows, so its proof is not made again beside
//! theirs.
#![tactic(auto)]

#[cfg(test)]
mod answers;
#[cfg(test)]
mod checksums;
#[cfg(test)]
mod counts;
#[cfg(test)]
mod disk;
#[cfg(test)]
mod marked_pages;
#[cfg(test)]
mod marks;
#[cfg(test)]
mod reads;
