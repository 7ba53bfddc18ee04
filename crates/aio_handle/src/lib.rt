//! The table of I/O handles that all backends and runners of a scan share (`aio_internal.h` of
//! PostgreSQL: the states and generations of handles). It has no lock.
//!
//! Each handle has one word and one slot. A backend acquires one of its handles, defines an I/O by
//! a record, stages and submits it; any actor may claim it, execute it and send the record home;
//! the owner takes the result and reclaims the handle, which then has the next generation. The
//! packing of the word and the moments at which a generation rises are this project's own.
//!
//! # What the contracts mean
//!
//! Contracts see an actor as what it knows: the list of marks that its events left, its looks at
//! words, the greatest pair of generation and place that it has seen of each handle, the handle
//! that it has handed out, and the aims of its I/Os. Each call says what it does to that, by one
//! equation, and hands out the moment at which it did so: a state that the machine of handles
//! reaches, for whose words the lists of all actors stand. Where it makes an event, it hands out the
//! moment after it too, and the event is the machine's step between the two. A token says where its
//! incarnation stands in its actor's list, and each call asks for that and gives it on.
//!
//! The rule of the table (`TableInvariant` in `specs`) holds between any two steps of any threads, so what
//! holds of every state of the machine holds there. Of the moment that a call hands out, its
//! contract ties the handle's word and its own actor's list. `stand_together` has the lists of two
//! actors at one moment, and `close` has those of all at the end.
#![tactic(auto)]

mod actor;
mod claimer_calls;
mod close;
mod execute;
mod front;
pub mod laws;
mod looks;
mod own_handles;
mod owner_calls;
mod record;
mod record_access;
mod rule;
mod sleepers;
mod stand_together;
mod steps;
mod table;
mod tokens;

pub use actor::{AcquireRefusal, Actor};
pub use close::Totals;
pub use execute::Execute;
pub use record::{Label, Record};
pub use table::Table;
pub use tokens::{Claimed, Defined, HandedOut, InFlight, Local, Staged, Take};
