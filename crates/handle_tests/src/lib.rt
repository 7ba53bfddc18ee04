//! Tests of the handle table and of what stands on it, with no other code.
//!
//! A module is named after what it tests: `table` the crate `aio_handle`, `waitref`, `batch` and
//! `trace` the crates with `aio_` before these names, `fixtures` the crate `aio_fixtures`. They are
//! callers like any other, so no library is proved once more beneath them.
#![tactic(auto)]

#[cfg(test)]
mod batch;
#[cfg(test)]
mod fixtures;
#[cfg(test)]
mod second_handle;
#[cfg(test)]
mod table;
#[cfg(test)]
mod trace;
#[cfg(test)]
mod waitref;
