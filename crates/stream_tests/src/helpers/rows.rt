//! Rows: a stream, and what is to come of it.

use crate::helpers::answers::{Answer, wanted_answer};
use crate::helpers::cases::{CASE, Case};
use crate::helpers::outcomes::run;
use std::alloc::Global;
use std::process::Abort;
use std::sync::Wait;
use std::test::Fail;

/// A stream, what it answers, and what becomes of its reads, where a row says so.
#[derive(Clone, Copy)]
pub(crate) struct Row<'a> {
    pub name: &'a str,
    pub case: Case<'a>,
    /// For how many blocks of the list it gives a page, and what it answers from then on.
    pub pages: u32,
    pub end: Answer,
    /// Behind how many calls it is closed, where that is not after the ending.
    pub calls: Option<u32>,
    /// The reads of the disk, each with its first block and how many were asked for.
    pub reads: Option<&'a [(u32, u32)]>,
    /// How many I/Os the stream's actor took in.
    pub taken: Option<u64>,
    /// Of how many I/Os the method heard.
    pub heard: Option<u64>,
    /// In how many batches, of one or more.
    pub batches: Option<u64>,
}

pub(crate) const ROW: Row<'static> = Row {
    name: "",
    case: CASE,
    pages: 0,
    end: Answer::End,
    calls: None,
    reads: None,
    taken: None,
    heard: None,
    batches: None,
};

/// How often an ending is asked for.
const ENDINGS: u32 = 2;

// How often it is called.
fn call_count(row: &Row<'_>) -> u32 {
    row.calls.unwrap_or(row.pages.saturating_add(ENDINGS))
}

// What is given for the first blocks of the list, and then the ending.
fn wanted(alloc: Global, row: &Row<'_>) -> Result<Vec<Answer>, Fail> {
    let list = row.case.list.list(alloc)?;
    let mut all = Vec::new(alloc);
    for entry in list.iter().take(row.pages as usize) {
        all.push(wanted_answer(&row.case, *entry))?;
    }
    for _ in 0..ENDINGS {
        all.push(row.end)?;
    }
    all.truncate(call_count(row) as usize);
    Ok(all)
}

/// Compares what comes of each row's stream with what is to come.
pub(crate) fn check_rows<R: Abort + AllocGlobal + Wait>(
    rt: &R,
    rows: &[Row<'_>],
) -> Result<(), Fail> {
    for row in rows {
        let (damaged, others) = (row.case.settings.rules.damaged, row.case.others.damaged);
        let name = format!(in rt.alloc(); "{}, {damaged:?} behind {others:?}", row.name)?;
        let ran = run(rt, &row.case, call_count(row))?;
        let all = wanted(rt.alloc(), row)?;
        assert_eq!(rt; ran.all.as_slice(), all.as_slice(), "{name}");
        if let Some(reads) = row.reads {
            assert_eq!(rt; ran.reads.as_slice(), reads, "{name}: reads");
        }
        if let Some(taken) = row.taken {
            assert_eq!(rt; ran.taken, taken, "{name}: I/Os taken in");
        }
        if let Some(heard) = row.heard {
            assert_eq!(rt; ran.heard, heard, "{name}: I/Os of which the method heard");
        }
        if let Some(batches) = row.batches {
            assert_eq!(rt; ran.batches, batches, "{name}: batches");
        }
    }
    Ok(())
}
