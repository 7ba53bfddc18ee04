//! Tests of the buffer pool and of its index, and no code besides.
//!
//! They know of `buf_pool` what every caller knows, so its proof is not made again beside theirs.
#![tactic(auto)]

#[cfg(test)]
mod checksums;
#[cfg(test)]
mod ends;
#[cfg(test)]
mod frames;
#[cfg(test)]
mod index;
#[cfg(test)]
mod pages;
#[cfg(test)]
mod parts;
#[cfg(test)]
mod refusals;
#[cfg(test)]
mod threads;
#[cfg(test)]
mod writers;
