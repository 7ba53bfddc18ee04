//! The record of a read.
ghost use Rattle.std.specs.Prelude.{◌≡◌, ◌≢◌, ◌≤◌, ◌<◌, ◌+◌, ◌^◌, ℕ, length, take, true};
ghost use Rattle.std.specs.Prelude.{Option, Some, None, IfOk, IfErr, [], ◌⊎◌, vec_capacity};
ghost use Rattle.aio_callback.specs.Row.{row_of};
ghost use Rattle.std.specs.Borrow.{Lends, Array, sem};
ghost use Rattle.page_check.specs.Told.{Told};
ghost use Rattle.page_check.specs.contracts.page.Page.{the_row as page_row};
ghost use Rattle.aio_word.specs.declared.Class.TheVariants.{Unended};
ghost use Rattle.aio_callback.specs.contracts.record.ReadIo.{the_row};
ghost use Rattle.aio_handle.specs.Labels.{bound_label};
ghost use Rattle.read_callbacks.specs.Chain.{good_count, IsWithin};
ghost use Rattle.read_callbacks.specs.GoodPages.{IsGivenAs};

use aio_handle::{Label, Record};
use aio_result::{AioResult, Status};
use aio_word::Class;
use page_check::{Page, PageMark};
use read_callbacks::{CallbackId, Raw, page_count, verifies_pages};
use std::alloc::{AllocError, Global};
use std::marker::Model;

mod complete;

/// How many callbacks were named: more than the 4 that a record has room for
/// (`PGAIO_HANDLE_MAX_CALLBACKS` of `aio_internal.h`).
#[derive(Clone, Copy, Debug, PartialEq, Eq)]
pub struct TooMany(pub usize);

/// A read of neighbouring blocks of a relation, with the pages that it fills. Contracts see it as
/// a `ReadIoView`.
///
/// `make` alone takes memory. A record belongs to whoever has it; nothing is shared.
#[derive(Drop)]
pub struct ReadIo {
    label: Label,
    relation: u32,
    first: u32,
    count: u32,
    checksums: bool,
    ids: [CallbackId; 4],
    id_count: usize,
    aimed: bool,
    raw: Option<Raw>,
    result: AioResult,
    // How many pages it has. None of them is there until the record is used, so that the system
    // need not give it memory before.
    room: u32,
    pages: Vec<Page>,
    // What was said of each page when the read ended.
    marks: Vec<PageMark>,
}

impl Model for ReadIo {
    ghost use Rattle.aio_callback.specs.ReadIoView.{ReadIoView};

    ghost Value = { ReadIoView };

    ghost use Rattle.std.specs.Prelude.{take};
    ghost use Rattle.aio_callback.specs.Row.{row_of};
    ghost use Rattle.aio_callback.specs.RecordInvariant.{RecordInvariant};

    ghost view = { λ r. record {
      label = r.label;
      relation = r.relation;
      first = r.first;
      count = r.count;
      checksums = r.checksums;
      ids = take r.id_count r.ids;
      aimed = r.aimed;
      raw = r.raw;
      result = r.result;
      pages = row_of r.room r.pages.items;
      marks = r.marks.items;
    } };

    ghost invariant = { RecordInvariant };
}

impl Record for ReadIo {
    ghost use Rattle.aio_handle.specs.Labels.{bound_label};
    ghost use Rattle.aio_callback.specs.ReadIoView.{record_aim, ReadFits, with_handle};

    ghost label = { λ r. r.label };

    ghost aim = { record_aim };

    ghost fits = { ReadFits };

    /// The record is for another I/O: no answer stands, and the rest of it stays.
    fn bind(&mut self, handle: u32, generation: u64)
        ensures value { self.new ≡ with_handle handle generation self.old }
        ensures label { self.new.label ≡ bound_label handle generation }
        ensures aim { record_aim self.new ≡ record_aim self.old }
        ensures fits { (told : Option Told) (relations : ℕ) → ReadFits told relations self.old
            → ReadFits told relations self.new }
    {
        self.label = unended_label(handle, generation);
        self.raw = None;
    }

    fn handle(&self) -> u32 {
        self.label.handle
    }

    fn generation(&self) -> u64 {
        self.label.generation
    }

    fn ended(&self) -> Class {
        self.label.ended
    }

    fn settled(&self) -> bool {
        self.label.settled
    }
}

// The label of an I/O that has not ended.
fn unended_label(handle: u32, generation: u64) -> Label
    ensures { result ≡ bound_label handle generation }
{
    Label {
        handle,
        generation,
        ended: Class::Unended,
        settled: false,
    }
}

// Makes the pages of zeros of a record that was not used.
fn fill_room(pages: &mut Vec<Page>, room: u32)
    requires capacity { room ≤ vec_capacity pages.old }
    requires room_or_none { (pages.old.items ≡ []) ⊎ (length pages.old.items ≡ room) }
    ensures same { pages.new.items ≡ row_of room pages.old.items }
    ensures size { length pages.new.items ≡ room }
    ensures capacity { room ≤ vec_capacity pages.new }
{
    if pages.is_empty() {
        for _ in 0..room {
            pages.push_reserved(Page::zeros());
        }
    }
}

impl ReadIo {
    ghost use Rattle.aio_callback.specs.ReadIoView.{record_page, record_mark, ReadFits};
    ghost use Rattle.aio_callback.specs.ReadIoView.{new_record, with_aim, with_pages};

    /// A record with `room` pages of zeros, 1 to 128, which it keeps for good. It is not aimed yet.
    ///
    /// It takes the memory of the pages; an error leaves nothing taken.
    pub fn make(alloc: Global, room: u32) -> Result<ReadIo, AllocError>
        requires { (1 ≤ room) × (room ≤ 128) }
        ensures { IfOk result (λ r. r ≡ new_record room) }
    {
        let pages = Vec::with_capacity(alloc, room as usize)?;
        let marks = vec![in alloc; PageMark::Valid; room as usize]?;
        Ok(ReadIo {
            label: unended_label(0, 0),
            relation: 0,
            first: 0,
            count: 0,
            checksums: false,
            ids: [CallbackId::Count; 4],
            id_count: 0,
            aimed: false,
            raw: None,
            result: AioResult {
                id: 0,
                status: Status::Unknown,
                error: 0,
                result: 0,
            },
            room,
            pages,
            marks,
        })
    }

    /// Says what is to be read, `count` blocks from `first` on, whether the checksums of their pages
    /// are verified, and which callbacks are to run.
    ///
    /// `count` is 1 to the record's room, and no block is above the last number of a block. After
    /// `Ok` nothing has ended and no answer stands. More than 4 callbacks are refused, and then the
    /// record is unchanged.
    pub fn aim(
        &mut self,
        relation: u32,
        first: u32,
        count: u32,
        checksums: bool,
        ids: &[CallbackId],
    ) -> Result<(), TooMany>
        requires some { 1 ≤ count }
        requires room { count ≤ length self.old.pages }
        requires in_range { first + count ≤ 2 ^ 32 }
        ensures ok { IfOk result (λ _. (length ids.now ≤ 4)
            × (self.new ≡ with_aim relation first count checksums ids.now self.old)) }
        ensures err { IfErr result (λ e. (e.0 ≡ length ids.now) × (4 < length ids.now)
            × (self.new ≡ self.old)) }
    {
        if ids.len() > 4 {
            return Err(TooMany(ids.len()));
        }
        self.label = unended_label(self.label.handle, self.label.generation);
        self.relation = relation;
        self.first = first;
        self.count = count;
        self.checksums = checksums;
        self.ids[..ids.len()].copy_from_slice(ids);
        self.id_count = ids.len();
        self.aimed = true;
        self.raw = None;
        Ok(())
    }

    /// The relation that is read.
    pub fn relation(&self) -> u32
        ensures { result ≡ self.now.relation }
    {
        self.relation
    }

    /// The first block that is read.
    pub fn first(&self) -> u32
        ensures { result ≡ self.now.first }
    {
        self.first
    }

    /// How many blocks are read: 1 to 128 once the record is aimed, and 0 before.
    pub fn count(&self) -> u32
        ensures value { result ≡ self.now.count }
        ensures room { result ≤ length self.now.pages }
        ensures few { result ≤ 128 }
        ensures some { self.now.aimed ≡ true → 0 < result }
        ensures in_range { self.now.first + result ≤ 2 ^ 32 }
    {
        self.count
    }

    /// The first `count` pages, for the read. No answer stands.
    pub fn pages_mut(&mut self) -> &mut [Page]
        requires { self.old.raw ≡ None }
        ensures* writes_back { sem 𝓛
            (Lends the_row (Array page_row 0) self.entry result (with_pages self.old)) }
        ensures value { result.now ≡ take self.old.count self.old.pages }
        ensures size { length result.now ≡ self.old.count }
        ensures few { length result.now ≤ 128 }
        ensures some { self.old.aimed ≡ true → 0 < length result.now }
    {
        fill_room(&mut self.pages, self.room);
        self.pages.slice_mut(..self.count as usize)
    }

    /// What the read answered: no more pages than were asked for. No answer stands before.
    pub fn answer(&mut self, answer: Raw)
        requires unanswered { self.old.raw ≡ None }
        requires few { IsWithin self.old.count answer }
        ensures { self.new ≡ record self.old { raw = Some answer } }
    {
        self.raw = Some(answer);
    }

    /// What the callbacks made of the answer, once the record has ended.
    pub fn result(&self) -> AioResult
        ensures { result ≡ self.now.result }
    {
        self.result
    }

    /// How many pages are good, once the record has ended: 0 to `count`.
    pub fn good(&self) -> u32
        ensures value { result ≡ good_count self.now.ids self.now.result }
        ensures few { self.now.label.ended ≢ Unended → result ≤ self.now.count }
    {
        if verifies_pages(&self.ids[..self.id_count]) {
            page_count(self.result.result)
        } else {
            0
        }
    }

    /// A good page of a record that has ended, for the block `first + index`. [`ReadIo::mark`] says
    /// what it is.
    pub fn page(&self, index: u32) -> &Page
        requires ended { self.now.label.ended ≢ Unended }
        requires good { index < good_count self.now.ids self.now.result }
        ensures value { result.now ≡ record_page self.now index }
        ensures given { (told : Option Told) (relations : ℕ) → ReadFits told relations self.now
            → IsGivenAs told self.now.checksums self.now.relation (self.now.first + index) result.now
            (record_mark self.now index) }
    {
        &self.pages[index as usize]
    }

    /// What is said of a good page of a record that has ended. Bad ones were marked by
    /// [`CallbackId::ZeroBuffer`] or [`CallbackId::MarkBuffer`].
    pub fn mark(&self, index: u32) -> PageMark
        requires ended { self.now.label.ended ≢ Unended }
        requires good { index < good_count self.now.ids self.now.result }
        ensures { result ≡ record_mark self.now index }
    {
        self.marks[index as usize]
    }
}
