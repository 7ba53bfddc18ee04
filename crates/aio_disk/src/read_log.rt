//! The log of reads that disks and shelves in memory keep.
ghost use Rattle.std.specs.Prelude.{◌≡◌, ◌++◌, ◌∷◌, [], take, IfOk, vec_capacity};
ghost use Rattle.aio_disk.specs.ReadLog.{empty_log, with_entry, with_entries};

use std::alloc::{AllocError, Global};
use std::marker::Model;

/// A read of a disk in memory.
#[derive(Clone, Copy, Debug, PartialEq, Eq)]
pub struct ReadEntry {
    /// Which disk of its shelf, counted from 0 in the order of opening.
    pub disk: u32,
    pub relation: u32,
    /// The first block.
    pub first: u32,
    /// How many pages were asked for.
    pub asked: u32,
    /// How many pages were given, or nothing where the read failed.
    pub answered: Option<u32>,
}

/// Reads in their order, as many as there is room for.
#[derive(Drop)]
pub(crate) struct ReadLog {
    reads: Vec<ReadEntry>,
}

impl Model for ReadLog {
    ghost use Rattle.std.specs.Prelude.{vec_capacity};
    ghost use Rattle.aio_disk.specs.ReadLog.{Log};

    ghost Value = { Log };

    ghost view = { λ log. record { entries = log.reads.items; room = vec_capacity log.reads } };
}

fn push_if_room(reads: &mut Vec<ReadEntry>, entry: ReadEntry)
    ensures reads { reads.new.items
        ≡ take (vec_capacity reads.old) (reads.old.items ++ entry ∷ []) }
    ensures room { vec_capacity reads.new ≡ vec_capacity reads.old }
{
    if reads.len() < reads.capacity() {
        reads.push_reserved(entry);
    }
}

impl ReadLog {
    /// An empty log, with its room.
    pub(crate) fn with_room(alloc: Global, room: usize) -> Result<ReadLog, AllocError>
        ensures { IfOk result (λ log. log ≡ empty_log room) }
    {
        Ok(ReadLog {
            reads: Vec::with_capacity(alloc, room)?,
        })
    }

    /// How many entries there is room for.
    pub(crate) fn room(&self) -> usize
        ensures { result ≡ self.now.room }
    {
        self.reads.capacity()
    }

    pub(crate) fn entries(&self) -> &[ReadEntry]
        ensures { result.now ≡ self.now.entries }
    {
        self.reads.as_slice()
    }

    /// Adds an entry, where there is room.
    pub(crate) fn add(&mut self, entry: ReadEntry)
        ensures { self.new ≡ with_entry self.old entry }
    {
        push_if_room(&mut self.reads, entry);
    }

    /// Adds entries in their order, as far as there is room.
    pub(crate) fn add_all(&mut self, entries: &[ReadEntry])
        ensures { self.new ≡ with_entries self.old entries.now }
    {
        for entry in entries {
            push_if_room(&mut self.reads, *entry);
        }
    }
}
