//! Tests of disks, shelves and sinks, in memory and over real files, and no code besides.
//!
//! They know of `aio_disk` what every caller knows. Real files stand in the folder that the tests
//! are run in, and are removed again.
#![tactic(auto)]

#[cfg(test)]
mod answers;
#[cfg(test)]
mod blocking;
#[cfg(test)]
mod faults;
#[cfg(test)]
mod files;
#[cfg(test)]
mod opens;
#[cfg(test)]
mod scripts;
#[cfg(test)]
mod segments;
#[cfg(test)]
mod sinks;
#[cfg(test)]
mod sources;
#[cfg(test)]
mod steady;
