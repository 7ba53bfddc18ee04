//! The calls of `aio_batch`: a batch that is filled, overfilled and submitted, and a caller that keeps
//! what it submitted.

mod fill;
mod keep;
mod listeners;
mod push;
