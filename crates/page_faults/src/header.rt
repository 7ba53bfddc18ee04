//! The rules on a page's header.
ghost use Rattle.std.specs.Prelude.{◌≡◌, ◌++◌, ◌∷◌, [], length, take, OnOk};
ghost use Rattle.page_check.specs.Fields.{header_of};
ghost use Rattle.page_faults.specs.HeaderFaults.{lsn_of, lsn_number, is_behind, header_fault};
ghost use Rattle.page_faults.specs.HeaderFaults.{checksum_faults, lsn_faults, version_faults};
ghost use Rattle.page_faults.specs.HeaderFaults.{lower_faults, is_wrong_lower, is_verified};

use crate::report::report;
use crate::{CheckOptions, Fault, Lsn};
use page_check::{Page, PageHeader, header, page_checksum, read_u32};
use std::alloc::AllocError;

/// Where line pointers begin: `SizeOfPageHeaderData` of `bufpage.h`.
const HEADER_SIZE: u16 = 24;

/// `BLCKSZ` plus `PG_PAGE_LAYOUT_VERSION`.
const SIZE_AND_VERSION: u16 = 8196;

/// `pd_lsn`: how far the write-ahead log has to be there before the page may be written. Of any
/// page.
#[inline]
#[tactic(auto, unfolding(crate::specs::HeaderFaults::lsn_of))]
pub fn lsn(page: &Page) -> Lsn
    ensures { result ≡ lsn_of page.now }
{
    let bytes = page.bytes();
    Lsn {
        high: read_u32(bytes, 0),
        low: read_u32(bytes, 4),
    }
}

#[inline]
fn number_of(lsn: Lsn) -> u64
    ensures { result ≡ lsn_number lsn }
{
    4_294_967_296 * u64::from(lsn.high) + u64::from(lsn.low)
}

#[inline]
fn is_behind(end: Option<Lsn>, lsn: Lsn) -> bool
    ensures { result ≡ is_behind end lsn }
{
    match end {
        Some(end) => number_of(end) < number_of(lsn),
        None => false,
    }
}

/// Reports that the header is not sane.
#[cold]
pub(crate) fn report_header(page: &Page, found: &mut Vec<Fault>) -> Result<(), AllocError>
    ensures ok { OnOk result
        (found.new.items ≡ found.old.items ++ header_fault (header_of page.now) ∷ []) }
    ensures prefix { take (length found.old.items) found.new.items ≡ found.old.items }
{
    let header = header(page);
    found.push(Fault::Header {
        flags: header.flags,
        lower: header.lower,
        upper: header.upper,
        special: header.special,
    })?;
    Ok(())
}

/// Reports a checksum that is not the page's as this block, where checksums are looked at.
#[tactic(auto, unfolding(crate::specs::HeaderFaults::checksum_faults))]
pub(crate) fn check_checksum(
    options: &CheckOptions,
    block: u32,
    page: &Page,
    found: &mut Vec<Fault>,
) -> Result<(), AllocError>
    ensures ok { OnOk result
        (found.new.items ≡ found.old.items ++ checksum_faults options.now block page.now) }
    ensures prefix { take (length found.old.items) found.new.items ≡ found.old.items }
{
    if !options.checksums {
        return Ok(());
    }
    let stored = header(page).checksum;
    let computed = page_checksum(page, block);
    report(
        found,
        stored != computed,
        Fault::Checksum { stored, computed },
    )
}

/// Its checksum shows that the page was written as this block.
pub(crate) fn is_verified(options: &CheckOptions, block: u32, page: &Page) -> bool
    ensures { result ≡ is_verified options.now block page.now }
{
    options.checksums && header(page).checksum == page_checksum(page, block)
}

/// Reports a page that was changed behind the end of the write-ahead log.
#[tactic(auto, unfolding(crate::specs::HeaderFaults::lsn_faults))]
pub(crate) fn check_lsn(
    options: &CheckOptions,
    page: &Page,
    found: &mut Vec<Fault>,
) -> Result<(), AllocError>
    ensures ok { OnOk result
        (found.new.items ≡ found.old.items ++ lsn_faults options.now page.now) }
    ensures prefix { take (length found.old.items) found.new.items ≡ found.old.items }
{
    let lsn = lsn(page);
    report(found, is_behind(options.end_lsn, lsn), Fault::Lsn { lsn })
}

/// Reports another page size or layout version.
#[tactic(auto, unfolding(crate::specs::HeaderFaults::version_faults))]
pub(crate) fn check_version(page: &Page, found: &mut Vec<Fault>) -> Result<(), AllocError>
    ensures ok { OnOk result
        (found.new.items ≡ found.old.items ++ version_faults page.now) }
    ensures prefix { take (length found.old.items) found.new.items ≡ found.old.items }
{
    let version = header(page).pagesize_version;
    report(
        found,
        version != SIZE_AND_VERSION,
        Fault::Version { version },
    )
}

#[inline]
fn is_wrong_lower(lower: u16) -> bool
    ensures { result ≡ is_wrong_lower lower }
{
    lower < HEADER_SIZE || (lower - HEADER_SIZE) % 4 != 0
}

/// Reports line pointers that do not end where one ends.
#[tactic(auto, unfolding(crate::specs::HeaderFaults::lower_faults))]
pub(crate) fn check_lower(page: &Page, found: &mut Vec<Fault>) -> Result<(), AllocError>
    ensures ok { OnOk result (found.new.items ≡ found.old.items ++ lower_faults page.now) }
    ensures prefix { take (length found.old.items) found.new.items ≡ found.old.items }
{
    let lower = header(page).lower;
    report(found, is_wrong_lower(lower), Fault::Lower { lower })
}
