//! Batches of staged I/Os, and the trait of the methods that begin them (PostgreSQL's batch mode,
//! `pgaio_enter_batchmode`, and `IoMethodOps` of `aio_internal.h`).
//!
//! A backend stages I/Os, pushes up to 32 of them into a batch, and submits them in the order of
//! pushing. A method then does what it does with submitted I/Os: with one, or with a batch.
//!
//! # What the contracts mean
//!
//! Contracts see a batch as the list of its tokens' references and records. Its tokens are staged
//! in one actor's list and of different incarnations: `submit_next` asks for that and gives it on.
//! The call takes the first token off, appends its Submitted mark, and then those of the method,
//! which are Claimed, Io and Shared marks, all three for each incarnation that it took up. So no
//! handle is handed out, and what the actor knew of its other tokens still holds. `pop_submitted`
//! leaves the method out, and the caller has all of a batch begun by one call.
//!
//! That each call of the table keeps the tokens that it does not use follows from its clauses. The
//! module `laws` says it once, for callers that hold several tokens.
#![tactic(auto)]

mod batch;
pub mod laws;
mod method;

pub use batch::{Batch, Full};
pub use method::Method;
