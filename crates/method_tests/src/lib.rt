//! Tests of the methods that execute I/Os, with no other code.
//!
//! A module is named after what it tests: `sync` the crate `method_sync`, `queue` and `worker` the
//! crate `method_worker`, `ring` the crate `method_ring`, `fixtures` the crate `read_fixtures`. They
//! are callers like any other, so no library is proved once more beneath them.
#![tactic(auto)]

#[cfg(test)]
mod fixtures;
#[cfg(test)]
mod queue;
#[cfg(test)]
mod ring;
#[cfg(test)]
mod sync;
#[cfg(test)]
mod worker;
