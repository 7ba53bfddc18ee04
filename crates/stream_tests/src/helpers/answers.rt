//! The answers of a stream, as tests compare them.

use crate::helpers::cases::Case;
use page_check::{DamagedPages, Page, Verdict};
use read_stream::Next;

/// An answer, with the page's block number that the file holds in place of `pd_prune_xid`, or
/// whether a zeroed page is zeros, or a sum over a damaged one.
#[derive(Clone, Copy, Debug, PartialEq, Eq)]
pub(crate) enum Answer {
    Page { block: u32, info: u32, shown: u32 },
    Zeroed { block: u32, info: u32, zeros: bool },
    Damaged { block: u32, info: u32, sum: u32 },
    End,
    Invalid(u32),
    Unread(u32),
    PastEnd(u32),
}

// A sum in which each byte counts by its place.
fn sum_of(page: &Page) -> u32 {
    let mut sum: u32 = 0;
    for byte in page.bytes() {
        sum = sum.wrapping_mul(31).wrapping_add(u32::from(*byte));
    }
    sum
}

pub(crate) fn answer_of(next: Next<'_, u32>) -> Answer {
    match next {
        Next::Page(page, block, info) => Answer::Page {
            block,
            info: *info,
            shown: page_check::header(page).prune_xid,
        },
        Next::Zeroed(page, block, info) => Answer::Zeroed {
            block,
            info: *info,
            zeros: matches!(page_check::check(page), Verdict::Zero),
        },
        Next::Damaged(page, block, info) => Answer::Damaged {
            block,
            info: *info,
            sum: sum_of(page),
        },
        Next::End => Answer::End,
        Next::Invalid(block) => Answer::Invalid(block),
        Next::Unread(block) => Answer::Unread(block),
        Next::PastEnd(block) => Answer::PastEnd(block),
    }
}

// Whether the stream of the case finds the block damaged.
fn is_damaged(case: &Case<'_>, block: u32) -> bool {
    let wrong = case.settings.rules.checksums && case.wrong_checksum == Some(block);
    wrong || case.damaged.contains(&block)
}

/// What the stream of the case answers for a block of the file, where nothing ends it before.
pub(crate) fn wanted_answer(case: &Case<'_>, (block, info): (u32, u32)) -> Answer {
    if !is_damaged(case, block) {
        return Answer::Page {
            block,
            info,
            shown: block,
        };
    }
    match case.settings.rules.damaged {
        DamagedPages::Refuse => Answer::Invalid(block),
        DamagedPages::Zero => Answer::Zeroed {
            block,
            info,
            zeros: true,
        },
        DamagedPages::Give => Answer::Damaged {
            block,
            info,
            sum: sum_of(&case.page_of(block)),
        },
    }
}
