//! The callbacks of a read, and the chain of them.
ghost use Rattle.std.specs.Prelude.{◌≡◌, ◌≤◌, ◌+◌, ◌^◌, length, pos};
ghost use Rattle.read_callbacks.specs.Chain.{natural_part, is_error, raw_result, class_of};
ghost use Rattle.read_callbacks.specs.Chain.{IsWithin, after_file, after_buffer, marking_id};
ghost use Rattle.read_callbacks.specs.Chain.{outcome_of, after_marking, after_callback, chain_result};
ghost use Rattle.read_callbacks.specs.Chain.{has_file, has_check_behind_file};

use crate::bad_pages::{first_bad_page, mark_bad_pages};
use aio_result::{AioResult, Status};
use aio_word::Class;
use page_check::{Page, PageMark};

/// What runs when a read has ended (`PgAioHandleCallbackID` of `aio.h`). A record names its
/// callbacks in the order of registration; they run from the last to the first.
#[derive(Clone, Copy, Debug, PartialEq, Eq)]
pub enum CallbackId {
    /// Looks at the answer of the device (`md_readv_complete` of `md.c`).
    File = 1,
    /// Checks the pages (`buffer_readv_complete` of `bufmgr.c`).
    Buffer = 2,
    /// Counts, at the owner alone.
    Count = 3,
    /// Checks the pages, and sets the bad ones to zeros (`buffer_readv_complete` of `bufmgr.c`
    /// under `zero_damaged_pages`).
    ZeroBuffer = 4,
    /// Checks the pages, and marks the bad ones and leaves them as they are (the same under
    /// `ignore_checksum_failure`).
    MarkBuffer = 5,
}

/// What a read answered.
#[derive(Clone, Copy, Debug, PartialEq, Eq)]
pub enum Raw {
    /// So many pages were read, at most as many as were asked for.
    Read(u32),
    /// The device failed.
    Failed,
}

impl Raw {
    /// How a read of `count` pages with this answer ended.
    pub fn class(self, count: u32) -> Class
        ensures { result ≡ class_of count self }
    {
        match self {
            Raw::Read(read) if read == count => Class::Whole,
            Raw::Read(_) => Class::Short,
            Raw::Failed => Class::Failed,
        }
    }
}

/// How many pages the number of a result names: 0 where it is below 0.
pub fn page_count(value: i32) -> u32
    ensures { result ≡ natural_part value }
{
    if value < 0 { 0 } else { value as u32 }
}

/// The result before any callback runs: the raw answer, as a number of pages.
pub fn first_result(answer: Raw) -> AioResult
    requires { IsWithin 128 answer }
    ensures { result ≡ raw_result answer }
{
    let number = match answer {
        Raw::Read(count) => count as i32,
        Raw::Failed => -1,
    };
    AioResult {
        id: 0,
        status: Status::Good,
        error: 0,
        result: number,
    }
}

fn file_error(error: u32) -> AioResult
    ensures { result ≡ record { id = 1; status = Status.Error; error = error; result = pos 0 } }
{
    AioResult {
        id: CallbackId::File as u8,
        status: Status::Error,
        error,
        result: 0,
    }
}

fn run_file(count: u32, before: AioResult) -> AioResult
    ensures { result ≡ after_file count before }
{
    if before.result < 0 {
        return file_error(1);
    }
    let read = page_count(before.result);
    if read == 0 {
        file_error(2)
    } else if read < count {
        AioResult {
            id: CallbackId::File as u8,
            status: Status::Partial,
            error: 0,
            result: before.result,
        }
    } else {
        before
    }
}

fn is_error_status(status: Status) -> bool
    ensures { result ≡ is_error status }
{
    matches!(status, Status::Error)
}

#[tactic(auto, unfolding(crate::specs::Chain::after_buffer))]
fn run_buffer(pages: &[Page], first: u32, checksums: bool, before: AioResult) -> AioResult
    requires many { length pages.now ≤ 128 }
    requires within { natural_part before.result ≤ length pages.now }
    requires in_range { first + natural_part before.result ≤ 2 ^ 32 }
    ensures { result ≡ after_buffer checksums first pages.now before }
{
    if is_error_status(before.status) {
        return before;
    }
    let read = page_count(before.result) as usize;
    match first_bad_page(&pages[..read], first, checksums) {
        Some(bad) => AioResult {
            id: CallbackId::Buffer as u8,
            status: Status::Error,
            error: bad as u32,
            result: bad as i32,
        },
        None => before,
    }
}

fn marking_id(mark: PageMark) -> u8
    ensures { result ≡ marking_id mark }
{
    match mark {
        PageMark::Zeroed => CallbackId::ZeroBuffer as u8,
        _ => CallbackId::MarkBuffer as u8,
    }
}

#[tactic(auto, unfolding(crate::specs::Chain::after_marking))]
fn run_marking(
    mark: PageMark,
    pages: &mut [Page],
    marks: &mut [PageMark],
    first: u32,
    checksums: bool,
    before: AioResult,
) -> AioResult
    requires many { length pages.old ≤ 128 }
    requires marks { length marks.old ≡ length pages.old }
    requires within { natural_part before.result ≤ length pages.old }
    requires in_range { first + natural_part before.result ≤ 2 ^ 32 }
    ensures value { outcome_of result pages.new marks.new
        ≡ after_marking mark checksums first (outcome_of before pages.old marks.old) }
    ensures below { natural_part result.result ≤ natural_part before.result }
{
    let failed = is_error_status(before.status);
    if failed {
        return before;
    }
    let read = page_count(before.result) as usize;
    match mark_bad_pages(
        mark,
        &mut pages[..read],
        &mut marks[..read],
        first,
        checksums,
    ) {
        0 => before,
        count => AioResult {
            id: marking_id(mark),
            status: Status::Warning,
            error: count,
            result: before.result,
        },
    }
}

#[tactic(auto, using(crate::proofs::ChainLowersResult::file_below, crate::proofs::ChainLowersResult::buffer_below))]
fn run_callback(
    id: CallbackId,
    checksums: bool,
    first: u32,
    count: u32,
    pages: &mut [Page],
    marks: &mut [PageMark],
    before: AioResult,
) -> AioResult
    requires many { length pages.old ≤ 128 }
    requires marks { length marks.old ≡ length pages.old }
    requires within { natural_part before.result ≤ length pages.old }
    requires in_range { first + natural_part before.result ≤ 2 ^ 32 }
    ensures value { outcome_of result pages.new marks.new
        ≡ after_callback checksums first count id (outcome_of before pages.old marks.old) }
    ensures below { natural_part result.result ≤ natural_part before.result }
    ensures room { (length pages.new ≡ length pages.old)
        × (length marks.new ≡ length marks.old) }
{
    match id {
        CallbackId::File => run_file(count, before),
        CallbackId::Buffer => run_buffer(pages, first, checksums, before),
        CallbackId::Count => before,
        CallbackId::ZeroBuffer => {
            run_marking(PageMark::Zeroed, pages, marks, first, checksums, before)
        }
        CallbackId::MarkBuffer => {
            run_marking(PageMark::Damaged, pages, marks, first, checksums, before)
        }
    }
}

/// Runs the callbacks, from the last to the first (`pgaio_io_call_complete_shared` of
/// `aio_callback.c`).
///
/// `first` and `count` are the blocks that were asked for. `raw` is the result before any callback.
/// `pages` are those that were read, and `marks` says what is said of each.
pub fn run_chain(
    ids: &[CallbackId],
    checksums: bool,
    first: u32,
    count: u32,
    pages: &mut [Page],
    marks: &mut [PageMark],
    raw: AioResult,
) -> AioResult
    requires many { length pages.old ≤ 128 }
    requires marks { length marks.old ≡ length pages.old }
    requires within { natural_part raw.result ≤ length pages.old }
    requires in_range { first + natural_part raw.result ≤ 2 ^ 32 }
    ensures value { outcome_of result pages.new marks.new
        ≡ chain_result checksums first count ids.now (outcome_of raw pages.old marks.old) }
    ensures below { natural_part result.result ≤ natural_part raw.result }
    ensures room { (length pages.new ≡ length pages.old)
        × (length marks.new ≡ length marks.old) }
{
    match ids {
        [] => raw,
        [id, others @ ..] => {
            let before = run_chain(others, checksums, first, count, pages, marks, raw);
            run_callback(*id, checksums, first, count, pages, marks, before)
        }
    }
}

fn has_file_in(ids: &[CallbackId]) -> bool
    ensures { result ≡ has_file ids.now }
{
    match ids {
        [] => false,
        [id, others @ ..] => matches!(id, CallbackId::File) || has_file_in(others),
    }
}

/// Whether pages are verified: some Buffer, ZeroBuffer or MarkBuffer runs after some File.
pub fn verifies_pages(ids: &[CallbackId]) -> bool
    ensures { result ≡ has_check_behind_file ids.now }
{
    match ids {
        [] => false,
        [
            CallbackId::Buffer | CallbackId::ZeroBuffer | CallbackId::MarkBuffer,
            others @ ..,
        ] => { has_file_in(others) || verifies_pages(others) }
        [_, others @ ..] => verifies_pages(others),
    }
}
