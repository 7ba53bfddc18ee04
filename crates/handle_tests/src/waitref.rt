//! The calls of `aio_waitref`: owners and other actors that wait for I/Os that nobody has claimed,
//! that another thread completes late, and that are over.

mod claimed;
mod moment;
mod own;
mod several;
mod stale_references;
