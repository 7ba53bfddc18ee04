//! The calls of `aio_handle`.

mod life;
mod lives;
mod races;
mod refusals;
mod sleeps;
mod stale_references;
mod together;
