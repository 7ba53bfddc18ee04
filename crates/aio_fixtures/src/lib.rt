//! What the tests and examples of the handle table share: the smallest record that a handle can
//! carry, and the calls of its owner and of its claimer.
//!
//! An [`EmptyIo`] reads nothing. The owner's calls serve every record.
//!
//! # What the contracts mean
//!
//! `HasUnreclaimed` of `specs` lists the incarnations that an actor has begun and not reclaimed.
//! `submit_io` adds one, and `take_and_reclaim` removes it. An actor for which the list is empty is
//! at rest, so its table may be closed. Both calls keep whatever else the actor has in flight.
#![tactic(auto)]

mod actors;
mod claimer;
mod empty_io;
mod executor;
mod owner;

pub use actors::{add_actor, close_with_two, last_actor, no_actors};
pub use claimer::{claim_and_complete, claim_io, complete_as};
pub use empty_io::EmptyIo;
pub use executor::WholeExecutor;
pub use owner::{submit_acquired, submit_io, take_and_reclaim};
