//! The faults of a page.
ghost use Rattle.std.specs.Prelude.{◌≡◌, ◌++◌, length, take, OnOk, OnErr};
ghost use Rattle.page_check.specs.Verdict.{IsValid, verdict_of};
ghost use Rattle.page_check.specs.declared.verdict.Verdict.TheVariants.{Sane};
ghost use Rattle.page_faults.specs.Faults.{faults_of, heap_faults, faults_by};

use crate::header::{check_checksum, check_lower, check_lsn, check_version, report_header};
use crate::items::check_items;
use crate::{CheckOptions, Fault};
use page_check::{Page, Verdict, check, header};
use std::alloc::AllocError;

/// `BLCKSZ`: where a special space that is empty begins.
const NO_SPECIAL_SPACE: u16 = 8192;

// Reports what is wrong with what stands behind the header of a heap page.
#[tactic(auto, unfolding(crate::specs::Faults::heap_faults))]
fn check_heap(
    options: &CheckOptions,
    block: u32,
    page: &Page,
    found: &mut Vec<Fault>,
) -> Result<(), AllocError>
    requires { IsValid page.now }
    ensures ok { OnOk result
        (found.new.items ≡ found.old.items ++ heap_faults options.now block page.now) }
    ensures prefix { take (length found.old.items) found.new.items ≡ found.old.items }
{
    if header(page).special != NO_SPECIAL_SPACE {
        return Ok(());
    }
    check_lower(page, found)?;
    check_items(options, block, page, found)
}

// Appends the faults one after the other. On an error the first may have been appended.
#[tactic(auto, unfolding(crate::specs::Faults::faults_of))]
fn append(
    options: &CheckOptions,
    block: u32,
    page: &Page,
    found: &mut Vec<Fault>,
) -> Result<(), AllocError>
    ensures ok { OnOk result
        (found.new.items ≡ found.old.items ++ faults_of options.now block page.now) }
    ensures prefix { take (length found.old.items) found.new.items ≡ found.old.items }
{
    match check(page) {
        Verdict::Zero => Ok(()),
        Verdict::Bad => {
            report_header(page, found)?;
            check_checksum(options, block, page, found)
        }
        Verdict::Sane => {
            check_checksum(options, block, page, found)?;
            check_lsn(options, page, found)?;
            check_version(page, found)?;
            check_heap(options, block, page, found)
        }
    }
}

/// Appends the faults of the page of a block, in the order in which they are told. Any 8192 bytes
/// will do. On an error, which is want of memory, `found` holds what it held before.
///
/// A page without a fault takes no memory, any other one what `found` has to grow by: a page has at
/// most 8200 faults. It takes time linear in the number of items and in the bytes that they have.
pub fn faults(
    options: &CheckOptions,
    block: u32,
    page: &Page,
    found: &mut Vec<Fault>,
) -> Result<(), AllocError>
    ensures ok { OnOk result
        (found.new.items ≡ found.old.items ++ faults_of options.now block page.now) }
    ensures err { OnErr result (found.new.items ≡ found.old.items) }
{
    let before = found.len();
    match append(options, block, page, found) {
        Ok(()) => Ok(()),
        Err(error) => {
            found.truncate(before);
            Err(error)
        }
    }
}
