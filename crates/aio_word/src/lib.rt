//! The word of an I/O handle, the events that change it, and the marks that they leave.
//!
//! A handle's state, its claim, the class of its result and its generation are one word. An
//! *incarnation* is a handle under one generation, and a [`WaitRef`] names it. Its life is the
//! eight marks Defined, Staged, Submitted, Claimed, Io, Shared, Local and Reclaimed, in this order.
//!
//! The contracts of [`pack`], [`unpack`], [`place`] and [`done`] are exact. `specs/Events.antt` has
//! the machine: which events are allowed, and what each does to its word and to the list of marks
//! of its actor. `specs/Stands.antt` says what the lists tell of the words. The functions of the
//! module `laws` do nothing: their contracts are what follows from these definitions, for every
//! event and every state.
//!
//! The states and their order are those of PostgreSQL's `aio_internal.h`. PostgreSQL keeps state
//! and generation as two fields: the packing is this project's own. So are the moments at which a
//! generation rises (reclaim alone), at which a wait reference can be had (from Defined on), and at
//! which a handle becomes CompletedLocal (once its owner has taken the result).
#![tactic(auto)]

use std::collections::LinkedList;

mod encoding;
mod laws;

pub use encoding::{done, pack, place, unpack};
pub use laws::{
    claimed_once, done_where_shared, each_mark_is_the_next_one, every_reached_machine_stands,
    over_has_each_mark_once, pairs_and_ranks_agree, reclaimed_before_the_next, shared_then_taken,
    step_keeps_stands, totals_agree,
};

/// The last generation of a handle: it is never handed out there.
pub const LAST_GENERATION: u64 = (1 << 58) - 1;

/// The state of a handle, after `PgAioHandleState` of `aio_internal.h`.
#[derive(Clone, Copy, Debug, PartialEq, Eq)]
pub enum State {
    /// Free.
    Idle,
    /// Given to its owner, which has not said yet what it is for.
    HandedOut,
    /// The operation is known, and wait references can be had.
    Defined,
    /// Ready to be submitted.
    Staged,
    /// Submitted, and executed by whoever claims it.
    Submitted,
    /// The operation is over, and its result is still its claimer's.
    CompletedIo,
    /// The shared callbacks ran: the result is there for everyone.
    CompletedShared,
    /// The owner has taken the result.
    CompletedLocal,
}

/// How an I/O ended.
#[derive(Clone, Copy, Debug, PartialEq, Eq)]
pub enum Class {
    /// It has not ended.
    Unended,
    /// All that was asked for was read.
    Whole,
    /// Less than that was read.
    Short,
    /// The read failed.
    Failed,
}

/// What the word of a handle says. The fields are free: [`pack`] asks for a lawful word.
#[derive(Clone, Copy, Debug, PartialEq, Eq)]
pub struct Word {
    pub state: State,
    /// Whether an executor has claimed the I/O and has not completed it.
    pub claimed: bool,
    pub class: Class,
    /// How often the handle was reclaimed, counted on from the first generation; below 2^58.
    pub generation: u64,
}

/// The number that no lawful word packs to.
#[derive(Clone, Copy, Debug, PartialEq, Eq)]
pub struct BadWord(pub u64);

/// An incarnation: a handle under one generation, after `PgAioWaitRef` of `aio_types.h`.
#[derive(Clone, Copy, Debug, PartialEq, Eq)]
pub struct WaitRef {
    pub handle: u32,
    pub generation: u64,
}

/// What an event does to the word of its handle.
#[derive(Clone, Copy, Debug, PartialEq, Eq)]
pub enum Step {
    HandOut,
    Release,
    Define,
    Stage,
    Submit,
    Claim,
    /// The operation ended so.
    Io(Class),
    Shared,
    Local,
    Reclaim,
}

/// A step that an actor makes on an incarnation.
#[derive(Clone, Copy, Debug, PartialEq, Eq)]
pub struct Event {
    pub actor: u32,
    pub handle: u32,
    pub generation: u64,
    pub step: Step,
}

/// How many backends there are, how many handles each owns, how many runners, and the first
/// generation. Actors are numbered from 0, the backends first; backend b owns the handles from
/// `b * per_backend` on.
#[derive(Clone, Copy, Debug, PartialEq, Eq)]
pub struct Config {
    pub backends: u32,
    pub per_backend: u32,
    pub runners: u32,
    pub start: u64,
}

/// What a mark says was done.
#[derive(Clone, Copy, Debug, PartialEq, Eq)]
pub enum Kind {
    Defined,
    Staged,
    Submitted,
    Claimed,
    Io(Class),
    Shared,
    Local(Class),
    Reclaimed,
}

/// One entry of an actor's list: what it did to an incarnation.
#[derive(Clone, Copy, Debug, PartialEq, Eq)]
pub struct Mark {
    pub handle: u32,
    pub generation: u64,
    pub kind: Kind,
}

/// One atomic step of an actor on a word: the handle, and the packed word that was found.
#[derive(Clone, Copy, Debug, PartialEq, Eq)]
pub struct Look {
    pub handle: u32,
    pub word: u64,
}

/// What one actor knows. Only contracts speak of it: no value of it is made.
pub struct Known {
    pub config: Config,
    /// The actor's number.
    pub number: u32,
    /// What it did, in order.
    pub marks: LinkedList<Mark>,
    /// The incarnation that it has handed out.
    pub out: Option<WaitRef>,
    /// Of each handle the greatest pair of generation and place that it read or made, as the rank
    /// of `specs/Words.antt`.
    pub seen: LinkedList<u64>,
    /// The words that it found, in order.
    pub looks: LinkedList<Look>,
    /// The aims of the incarnations that it has submitted or claimed.
    pub aims: LinkedList<(WaitRef, LinkedList<u64>)>,
}
