//! Reads of four blocks, how they end, and what the places are told of them.
ghost use Rattle.std.specs.Prelude.{◌≡◌, ◌≢◌, ◌<◌, ◌^◌, false, None, IfOk, IfSome};
ghost use Rattle.aio_word.specs.declared.Class.TheVariants.{Unended};
ghost use Rattle.read_callbacks.specs.Chain.{IsWithin};
ghost use Rattle.record_tests.specs.PendingReads.{IsPendingRead};

use crate::marked_pages::{Marked, MarkedPage, check_pages, good_pages};
use aio_callback::{CallbackId, Places, Raw, ReadIo};
use aio_handle::Record;
use aio_result::{AioResult, Status};
use aio_word::{Class, WaitRef};
use page_check::{Page, World};
use page_fixtures::pages::{DAMAGED, page_of};
use std::alloc::Global;
use std::marker::Brand;
use std::process::Abort;
use std::sync::Wait;
use std::test::Fail;

/// A call of `finish`.
#[derive(Clone, Copy, Debug, PartialEq, Eq)]
struct FinishCall {
    relation: u32,
    block: u32,
    handle: u32,
    generation: u64,
    checksums: bool,
    has_page: bool,
}

/// Places that write down what they are told.
#[derive(Drop)]
struct Notes {
    calls: Vec<FinishCall>,
}

impl<W: World> Places<W> for Notes {
    ghost use Rattle.std.specs.Prelude.{None};

    ghost finished = { λ _. None };

    fn finish<T: Wait>(
        &mut self,
        _rt: &T,
        relation: u32,
        block: u32,
        checksums: bool,
        reference: WaitRef,
        page: Option<&Page>,
    ) {
        let _ = self.calls.push(FinishCall {
            relation,
            block,
            handle: reference.handle,
            generation: reference.generation,
            checksums,
            has_page: page.is_some(),
        });
    }
}

/// A record of handle 7 and generation 9 that is to read four blocks of relation 3, with their
/// checksums verified or not, and has room for 5.
pub(crate) fn aimed(
    alloc: Global,
    ids: &[CallbackId],
    first: u32,
    checksums: bool,
) -> Result<ReadIo, Fail>
    requires { first < 2 ^ 31 }
    ensures { IfOk result (λ r. IsPendingRead 4 r) }
{
    let mut io = ReadIo::make(alloc, 5)?;
    io.aim(3, first, 4, checksums, ids)?;
    io.bind(7, 9);
    Ok(io)
}

/// Puts a page into the place of another one.
pub(crate) fn place(io: &mut ReadIo, index: usize, page: &Page)
    requires pending { IsPendingRead 4 io.old }
    requires index { index < 4 }
    ensures { IsPendingRead 4 io.new }
{
    let pages = io.pages_mut();
    pages[index].copy_from(page);
}

/// What became of a read.
#[derive(Clone, Copy, Debug, PartialEq, Eq)]
pub(crate) struct Ending {
    pub(crate) class: Class,
    pub(crate) result: AioResult,
    pub(crate) good: u32,
}

pub(crate) fn ending_of(io: &ReadIo) -> Ending {
    Ending {
        class: io.ended(),
        result: io.result(),
        good: io.good(),
    }
}

/// Answers a record and completes it.
pub(crate) fn completed<W: World, P: Places<W>, T: Wait>(
    rt: &T,
    io: &mut ReadIo,
    answer: Raw,
    places: &mut P,
) -> Ending
    requires told { W.told ≡ None }
    requires pending { IsPendingRead 4 io.old }
    requires answer { IsWithin 4 answer }
    ensures { (io.new.label.ended ≢ Unended) × (io.new.label.settled ≡ false) }
{
    io.answer(answer);
    io.complete_shared::<W, P, T>(rt, places);
    ending_of(io)
}

pub(crate) fn result_of(id: u8, status: Status, error: u32, number: i32) -> AioResult {
    AioResult {
        id,
        status,
        error,
        result: number,
    }
}

/// What became of a read, what the places were told, and the good pages.
#[derive(Drop)]
pub(crate) struct EndOutcome {
    pub(crate) ending: Ending,
    notes: Notes,
    pub(crate) pages: Vec<MarkedPage>,
}

/// How the read of this record ends.
pub(crate) fn outcome_of<T: Wait>(
    rt: &T,
    alloc: Global,
    mut io: ReadIo,
    answer: Raw,
) -> Result<EndOutcome, Fail>
    requires pending { IsPendingRead 4 io }
    requires answer { IsWithin 4 answer }
{
    let mut notes = Notes {
        calls: Vec::new(alloc),
    };
    let ending = completed::<Brand, Notes, T>(rt, &mut io, answer, &mut notes);
    Ok(EndOutcome {
        ending,
        notes,
        pages: good_pages(alloc, &io)?,
    })
}

/// How a read of blocks 10 to 13 of relation 3 ends, where the page at an offset may be bad.
fn end_of<T: Wait>(
    rt: &T,
    alloc: Global,
    ids: &[CallbackId],
    checksums: bool,
    case: &Case,
) -> Result<EndOutcome, Fail>
    requires answer { IsWithin 4 case.now.answer }
    requires bad { IfSome case.now.bad (λ i. i < 4) }
{
    let mut io = aimed(alloc, ids, 10, checksums)?;
    if let Some(index) = case.bad {
        place(&mut io, index, &page_of(DAMAGED));
    }
    outcome_of(rt, alloc, io, case.answer)
}

/// A read and what becomes of it.
#[derive(Clone, Copy, Debug)]
pub(crate) struct Case {
    answer: Raw,
    bad: Option<usize>,
    ending: Ending,
}

pub(crate) fn case_of(
    answer: Raw,
    bad: Option<usize>,
    class: Class,
    value: AioResult,
    good: u32,
) -> Case {
    Case {
        answer,
        bad,
        ending: Ending {
            class,
            result: value,
            good,
        },
    }
}

/// Checks that the places are told of each block in rising order, and of which with its page.
pub(crate) fn check_calls<R: Abort>(
    rt: &R,
    ended: &EndOutcome,
    checksums: bool,
    blocks: [(u32, bool); 4],
    name: &str,
) {
    assert_eq!(rt; ended.notes.calls.len(), 4, "{name}");
    for (call, (block, has_page)) in ended.notes.calls.iter().zip(blocks) {
        let wanted = FinishCall {
            relation: 3,
            block,
            handle: 7,
            generation: 9,
            checksums,
            has_page,
        };
        assert_eq!(rt; *call, wanted, "{name}");
    }
}

// Checks one case, with checksums verified or not: its pages are zeros, which are valid in either
// way, and one that is bad in either.
fn check_either<R: Abort + AllocGlobal + Wait>(
    rt: &R,
    ids: &[CallbackId],
    case: Case,
    marked: Marked,
    checksums: bool,
) -> Result<(), Fail> {
    assert!(rt; matches!(case.answer, Raw::Failed | Raw::Read(0..=4)));
    assert!(rt; case.bad.is_none_or(|index| index < 4));
    let name = format!(in rt.alloc(); "{case:?}, checksums {checksums}")?;
    let name = name.as_str();
    let ended = end_of(rt, rt.alloc(), ids, checksums, &case)?;
    let good = case.ending.good;
    assert_eq!(rt; ended.ending, case.ending, "{name}");
    assert_eq!(rt; case.answer.class(4), case.ending.class, "{name}");
    let mut blocks = [(10, false), (11, false), (12, false), (13, false)];
    for (index, place) in blocks.iter_mut().enumerate() {
        place.1 = index < good as usize && marked.is_none_or(|(page, _)| page != index);
    }
    check_calls(rt, &ended, checksums, blocks, name);
    check_pages(rt, ended.pages.as_slice(), good, marked, name);
    Ok(())
}

/// Checks how a read ends, that the places are told of each block in rising order, and which page
/// is marked, with checksums verified and not.
pub(crate) fn check_case<R: Abort + AllocGlobal + Wait>(
    rt: &R,
    ids: &[CallbackId],
    case: Case,
    marked: Marked,
) -> Result<(), Fail> {
    for checksums in [false, true] {
        check_either(rt, ids, case, marked, checksums)?;
    }
    Ok(())
}
