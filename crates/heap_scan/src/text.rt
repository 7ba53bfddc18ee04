//! The text of a page.
ghost use Rattle.std.specs.Prelude.{◌≡◌, ◌++◌, ◌+◌, length, take, OnOk, OnErr};
ghost use Rattle.page_check.specs.Verdict.{IsValid, verdict_of};
ghost use Rattle.page_check.specs.LinePointers.{line_pointer_count};
ghost use Rattle.page_check.specs.declared.verdict.Verdict.TheVariants.{Zero};
ghost use Rattle.heap_scan.specs.PageText.{page_text_of, line_count, FirstLineTells};
ghost use Rattle.heap_scan.specs.PageText.{damaged_text_of};

use crate::lines::{ITEM_ROOM, PAGE_ROOM, put_damaged_line, put_first_lines, put_items};
use page_check::{Page, count};
use std::alloc::AllocError;

// So many line pointers are written into the scratch at a time.
const ITEMS_AT_ONCE: u16 = 64;

const SCRATCH_SIZE: usize = PAGE_ROOM + ITEM_ROOM * ITEMS_AT_ONCE as usize;

// Writes the text piece by piece into the scratch, and appends each. On an error the first pieces may
// have been appended.
fn append(
    scratch: &mut [u8],
    relation: u32,
    block: u32,
    page: &Page,
    out: &mut Vec<u8>,
) -> Result<(), AllocError>
    requires valid { IsValid page.now }
    requires room { length scratch.old ≡ 2144 }
    ensures ok { OnOk result
        (out.new.items ≡ out.old.items ++ page_text_of relation block page.now) }
    ensures prefix { take (length out.old.items) out.new.items ≡ out.old.items }
{
    let count = count(page);
    let mut done = count.min(ITEMS_AT_ONCE);
    let start = put_first_lines(scratch, relation, block, page, done);
    out.extend_from_slice(&scratch[start..])?;
    while done < count {
        let more = (count - done).min(ITEMS_AT_ONCE);
        let first = put_items(scratch, page, done, done + more);
        out.extend_from_slice(&scratch[first..])?;
        done += more;
    }
    Ok(())
}

/// Appends the text of a valid page. On an error, which is want of memory, `out` holds what it
/// held before.
///
/// It takes what `out` has to grow by, and no other memory. On the stack it has a scratch of 2144
/// bytes, which it fills with zeros once.
#[inline(never)]
pub fn page_text(
    relation: u32,
    block: u32,
    page: &Page,
    out: &mut Vec<u8>,
) -> Result<(), AllocError>
    requires { IsValid page.now }
    ensures ok { OnOk result
        (out.new.items ≡ out.old.items ++ page_text_of relation block page.now) }
    ensures err { OnErr result (out.new.items ≡ out.old.items) }

    // Laws of this text: a new page has one line, any other one for each line pointer besides,
    // and the first line tells the place and the header.
    ensures new { verdict_of page.now ≡ Zero
        → line_count (page_text_of relation block page.now) ≡ 1 }
    ensures lines { line_count (page_text_of relation block page.now) ≡ 1
        + line_pointer_count page.now }
    ensures first_line { FirstLineTells relation block page.now }
{
    let before = out.len();
    match append(&mut [0; SCRATCH_SIZE], relation, block, page, out) {
        Ok(()) => Ok(()),
        Err(error) => {
            out.truncate(before);
            Err(error)
        }
    }
}

/// Appends the line of a page that is not valid and is given as it is. Any page will do. On an
/// error, which is want of memory, `out` holds what it held before.
///
/// It takes memory where `out` has to grow.
#[tactic(auto, unfolding(crate::specs::PageText::damaged_text_of))]
pub fn damaged_text(
    relation: u32,
    block: u32,
    page: &Page,
    out: &mut Vec<u8>,
) -> Result<(), AllocError>
    ensures ok { OnOk result
        (out.new.items ≡ out.old.items ++ damaged_text_of relation block page.now) }
    ensures err { OnErr result (out.new.items ≡ out.old.items) }
{
    let mut line = [0; PAGE_ROOM];
    let start = put_damaged_line(&mut line, relation, block, page);
    out.extend_from_slice(&line[start..])
}
