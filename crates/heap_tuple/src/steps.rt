//! The steps of update chains.
ghost use Rattle.std.specs.Prelude.{◌≡◌, ℕ, ◌<◌, ◌+◌, MatchOption, IfSome};
ghost use Rattle.page_check.specs.Verdict.{IsValid};
ghost use Rattle.page_check.specs.LinePointers.{line_pointer_count};
ghost use Rattle.heap_tuple.specs.Tuples.{Steps, step_of, has_xmin};

use crate::{TupleHeader, tuple};
use page_check::{Page, count};

fn is_inserted_by(header: Option<TupleHeader>, xid: u32) -> bool
    ensures { result ≡ has_xmin header xid }
{
    match header {
        Some(made) => made.xmin == xid,
        None => false,
    }
}

/// The index of the item to which the item at an index steps, in an update chain of the page of
/// this block: the one that `t_ctid` names, where that is another item here, and the transaction
/// that made it is the one that updated the item.
#[tactic(auto, unfolding(crate::specs::Tuples::step_of))]
pub fn step(page: &Page, block: u32, index: u16) -> Option<u16>
    requires valid { IsValid page.now }
    requires index { index < line_pointer_count page.now }
    ensures value { result ≡ step_of page.now block index }
    ensures step { MatchOption result ((next : ℕ) → Steps page.now block index next → ⊥)
        (λ next. Steps page.now block index next) }
    ensures below { IfSome result (λ next. next < line_pointer_count page.now) }
{
    let updated = tuple(page, index)?;
    let named = updated.position;
    if updated.block != block || named == 0 || named > count(page) || named == index + 1 {
        return None;
    }
    let next = named - 1;
    if is_inserted_by(tuple(page, next), updated.xmax) {
        Some(next)
    } else {
        None
    }
}
