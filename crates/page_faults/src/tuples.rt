//! The rules on the header of a tuple.
ghost use Rattle.std.specs.Prelude.{◌≡◌, ℕ, ◌++◌, [], ◌&&◌, not, false, length, take, OnOk};
ghost use Rattle.page_faults.specs.TupleFaults.{has_bits, expected_hoff, is_wrong_hoff};
ghost use Rattle.page_faults.specs.TupleFaults.{has_not_begun, tuple_faults, is_frozen};
ghost use Rattle.page_faults.specs.TupleFaults.{is_multi};

use crate::report::report;
use crate::{CheckOptions, Fault};
use heap_tuple::TupleHeader;
use std::alloc::AllocError;

/// `HEAP_HASNULL` of `htup_details.h`: a bitmap of nulls follows the fixed fields.
const HAS_NULL: u16 = 0x0001;

/// `HEAP_HASOID_OLD`: an object identifier follows, as servers before version 12 wrote it.
const HAS_OID: u16 = 0x0008;

/// `HEAP_XMIN_FROZEN`.
const FROZEN: u16 = 0x0300;

/// `HEAP_XMAX_IS_MULTI`.
const MULTI: u16 = 0x1000;

/// `HEAP_XMAX_COMMITTED` and `HEAP_XMAX_IS_MULTI`.
const COMMITTED_MULTI: u16 = 0x1400;

/// `FirstNormalTransactionId` of `transam.h`.
const FIRST_NORMAL: u32 = 3;

/// All of these bits are set.
#[inline]
fn has_bits(mask: u16, bits: u16) -> bool
    ensures { result ≡ has_bits mask bits }
{
    mask & bits == bits
}

/// The tuple counts as made by a transaction before all others.
#[inline]
pub(crate) fn is_frozen(header: &TupleHeader) -> bool
    ensures { result ≡ is_frozen header.now }
{
    has_bits(header.mask, FROZEN)
}

// Where the tuple's data is to begin.
#[inline]
fn expected_hoff(header: &TupleHeader) -> u32
    ensures { result ≡ expected_hoff header.now }
{
    if !has_bits(header.mask, HAS_NULL) && !has_bits(header.mask, HAS_OID) {
        return 24;
    }
    let nulls = if has_bits(header.mask, HAS_NULL) {
        (u32::from(header.attrs) + 7) / 8
    } else {
        0
    };
    let oid = if has_bits(header.mask, HAS_OID) { 4 } else { 0 };
    (23 + nulls + oid + 7) / 8 * 8
}

#[inline]
fn is_wrong_hoff(len: u16, header: &TupleHeader) -> bool
    ensures { result ≡ is_wrong_hoff len header.now }
{
    u32::from(header.hoff) != expected_hoff(header) || u16::from(header.hoff) > len
}

// A normal transaction that is this one or a later one, as `TransactionIdPrecedes` has it.
#[inline]
fn has_not_begun(next: Option<u32>, xid: u32) -> bool
    ensures { result ≡ has_not_begun next xid }
{
    match next {
        Some(next) => xid >= FIRST_NORMAL && xid.wrapping_sub(next) < 0x8000_0000,
        None => false,
    }
}

#[inline]
fn is_wrong_xmin(options: &CheckOptions, header: &TupleHeader) -> bool
    ensures { result
        ≡ (not (is_frozen header.now) && has_not_begun options.now.next_xid header.now.xmin) }
{
    !is_frozen(header) && has_not_begun(options.next_xid, header.xmin)
}

#[inline]
fn is_wrong_xmax(options: &CheckOptions, header: &TupleHeader) -> bool
    ensures { result
        ≡ (not (is_multi header.now) && has_not_begun options.now.next_xid header.now.xmax) }
{
    !has_bits(header.mask, MULTI) && has_not_begun(options.next_xid, header.xmax)
}

/// Whether something is wrong with the header of a tuple, whose item has this length in bytes.
#[inline]
pub(crate) fn has_fault(options: &CheckOptions, len: u16, header: &TupleHeader) -> bool
    ensures { result ≡ false → (item : ℕ) → tuple_faults options.now item len header.now ≡ [] }
{
    if is_wrong_hoff(len, header) {
        return true;
    }
    if has_bits(header.mask, COMMITTED_MULTI) {
        return true;
    }
    if options.next_xid.is_none() {
        return false;
    }
    is_wrong_xmin(options, header) || is_wrong_xmax(options, header)
}

/// Reports what is wrong with the header of a tuple, whose item has this number, and this length in
/// bytes.
#[inline]
#[tactic(auto, unfolding(crate::specs::TupleFaults::tuple_faults))]
pub(crate) fn check_tuple(
    options: &CheckOptions,
    item: u16,
    len: u16,
    header: &TupleHeader,
    found: &mut Vec<Fault>,
) -> Result<(), AllocError>
    ensures ok { OnOk result (found.new.items
        ≡ found.old.items ++ tuple_faults options.now item len header.now) }
    ensures prefix { take (length found.old.items) found.new.items ≡ found.old.items }
{
    let expected = expected_hoff(header);
    let (hoff, mask) = (header.hoff, header.mask);
    let (xmin, xmax) = (header.xmin, header.xmax);
    let wrong = is_wrong_hoff(len, header);
    report(
        found,
        wrong,
        Fault::Hoff {
            item,
            hoff,
            expected,
        },
    )?;
    let wrong = has_bits(mask, COMMITTED_MULTI);
    report(found, wrong, Fault::Mask { item, mask })?;
    let wrong = is_wrong_xmin(options, header);
    report(found, wrong, Fault::Xmin { item, xmin })?;
    let wrong = is_wrong_xmax(options, header);
    report(found, wrong, Fault::Xmax { item, xmax })
}
