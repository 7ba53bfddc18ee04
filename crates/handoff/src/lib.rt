//! Requests that a client hands to a thread which lives through many of them, and their replies.
//!
//! A [`Handoff`] has one word and one slot. The client puts a request into the slot. A server takes
//! it, and puts its reply in the same place. The client takes the reply, or takes back a request
//! that no server has taken yet. It has no lock.
//!
//! # What the contracts mean
//!
//! Contracts see a [`Client`] as what it has requested and not yet got back. Whatever calls are in
//! the middle, the slot holds that very request, or a reply to it, or a server has it. That is the
//! rule of the table (`SlotRule` in `specs`). So the reply that `complete` gives is one to what was
//! put. That a request is ever taken, and that a thread that sleeps is woken, is no part of any
//! contract.
#![tactic(auto)]

mod client;
mod handoff;
mod rule;
mod server;
mod sleepers;
mod slot;
mod steps;
mod word;

pub use client::{Client, Completion};
pub use handoff::Handoff;
pub use rule::Service;
pub use server::PendingReply;
