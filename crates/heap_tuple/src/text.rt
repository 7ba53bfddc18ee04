//! The text of a page with its tuples.
ghost use Rattle.std.specs.Prelude.{◌≡◌, ◌≢◌, ◌++◌, ◌+◌, length, take, OnOk, OnErr};
ghost use Rattle.page_check.specs.Fields.{header_of};
ghost use Rattle.page_check.specs.Verdict.{IsValid};
ghost use Rattle.heap_tuple.specs.Chains.{IsLongest, longest_of, roots_of};
ghost use Rattle.heap_tuple.specs.TuplesText.{tuples_text_of};

use crate::chains::{Chains, count_chains};
use crate::lines::{LINES_ROOM, put_chains, put_first_lines, put_items};
use heap_scan::{PAGE_ROOM, page_text};
use page_check::{Page, count, header};
use std::alloc::AllocError;

// The lines of so many items are written into the scratch at a time.
const ITEMS_AT_ONCE: u16 = 8;

const SCRATCH_SIZE: usize = PAGE_ROOM + LINES_ROOM * ITEMS_AT_ONCE as usize;

// Writes the text of a page that is not new piece by piece into the scratch, and appends each. On an
// error the first pieces may have been appended.
fn append(
    scratch: &mut [u8],
    relation: u32,
    block: u32,
    page: &Page,
    chains: &Chains,
    out: &mut Vec<u8>,
) -> Result<(), AllocError>
    requires valid { IsValid page.now }
    requires used { (header_of page.now).upper ≢ 0 }
    requires chains { (chains.now.roots ≡ length (roots_of page.now block))
        × (chains.now.longest ≡ longest_of page.now block) }
    requires room { length scratch.old ≡ 1888 }
    ensures ok { OnOk result
        (out.new.items ≡ out.old.items ++ tuples_text_of relation block page.now) }
    ensures prefix { take (length out.old.items) out.new.items ≡ out.old.items }
{
    let count = count(page);
    let mut done = count.min(ITEMS_AT_ONCE);
    let start = put_first_lines(scratch, relation, block, page, done);
    out.extend_from_slice(&scratch[start..])?;
    while done < count {
        let more = (count - done).min(ITEMS_AT_ONCE);
        let first = put_items(scratch, page, block, done, done + more);
        out.extend_from_slice(&scratch[first..])?;
        done += more;
    }
    let last = put_chains(scratch, chains);
    out.extend_from_slice(&scratch[last..])?;
    Ok(())
}

// Appends the text of a page that is not new, or nothing. Beside the call that counts the chains, the
// scratch would be filled with zeros twice.
#[inline(never)]
fn append_whole(
    relation: u32,
    block: u32,
    page: &Page,
    chains: &Chains,
    out: &mut Vec<u8>,
) -> Result<(), AllocError>
    requires valid { IsValid page.now }
    requires used { (header_of page.now).upper ≢ 0 }
    requires chains { (chains.now.roots ≡ length (roots_of page.now block))
        × (chains.now.longest ≡ longest_of page.now block) }
    ensures ok { OnOk result
        (out.new.items ≡ out.old.items ++ tuples_text_of relation block page.now) }
    ensures err { OnErr result (out.new.items ≡ out.old.items) }
{
    let before = out.len();
    match append(&mut [0; SCRATCH_SIZE], relation, block, page, chains, out) {
        Ok(()) => Ok(()),
        Err(error) => {
            out.truncate(before);
            Err(error)
        }
    }
}

/// Appends the text of a valid page with its tuples: the lines that `heap_scan::page_text` has,
/// behind each normal item's line one for the header of its tuple, and at the end, where the page
/// is not new, one that counts the update chains and the items of the longest. On an error, which
/// is want of memory, `out` holds what it held before.
///
/// It takes time linear in the number of items, and memory for the text and for 6 bytes an item. On
/// the stack it has a scratch of 1888 bytes, which it fills with zeros once.
pub fn tuples_text(
    relation: u32,
    block: u32,
    page: &Page,
    out: &mut Vec<u8>,
) -> Result<(), AllocError>
    requires { IsValid page.now }
    ensures ok { OnOk result
        (out.new.items ≡ out.old.items ++ tuples_text_of relation block page.now) }
    ensures err { OnErr result (out.new.items ≡ out.old.items) }

    // What the last number means: a chain of a root has so many distinct items, each the step of
    // the one before, and none has more.
    ensures longest { IsLongest page.now block (longest_of page.now block) }
{
    if header(page).upper == 0 {
        return page_text(relation, block, page, out);
    }
    let chains = count_chains(*out.allocator(), page, block)?;
    append_whole(relation, block, page, &chains, out)
}
