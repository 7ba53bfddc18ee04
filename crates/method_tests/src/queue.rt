//! The submission queue of `method_worker`, with one seat and with several.

mod capacity;
pub(crate) mod entries;
mod threads;
