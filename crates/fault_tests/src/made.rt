//! Pages with items and tuples, and the lines of their faults.
use heap_tuple::TupleHeader;
use page_check::{Kind, Page};
use page_faults::{CheckOptions, Fault, Lsn, faults, faults_text};
use page_fixtures::pages::{BOUNDS, CONTENTS, bounds, line_pointer_bytes, page_of, put_bytes};
use std::process::Abort;
use std::test::Fail;

/// No rule that asks for more than the page.
pub(crate) const PLAIN: CheckOptions = CheckOptions {
    checksums: false,
    end_lsn: None,
    next_xid: None,
};

/// The next transaction is 1000.
pub(crate) const AT_1000: CheckOptions = CheckOptions {
    checksums: false,
    end_lsn: None,
    next_xid: Some(1000),
};

/// Checksums alone.
pub(crate) const SUMMED: CheckOptions = CheckOptions {
    checksums: true,
    end_lsn: None,
    next_xid: None,
};

/// The write-ahead log ends here.
pub(crate) fn ending(high: u32, low: u32) -> CheckOptions {
    CheckOptions {
        checksums: false,
        end_lsn: Some(Lsn { high, low }),
        next_xid: None,
    }
}

/// A tuple as a server writes it: two attributes, no nulls, its transaction committed, itself its
/// `t_ctid` at an item of block 0.
pub(crate) fn tuple_of(item: u16) -> TupleHeader {
    TupleHeader {
        xmin: 700,
        xmax: 0,
        field3: 0,
        block: 0,
        position: item,
        attrs: 2,
        mask: 0x0902,
        hoff: 24,
    }
}

/// Writes the header of a tuple at an offset.
pub(crate) fn put_tuple(page: &mut Page, offset: usize, tuple: &TupleHeader) {
    let fields: [&[u8]; 9] = [
        &tuple.xmin.to_le_bytes(),
        &tuple.xmax.to_le_bytes(),
        &tuple.field3.to_le_bytes(),
        &((tuple.block >> 16) as u16).to_le_bytes(),
        &((tuple.block & 0xffff) as u16).to_le_bytes(),
        &tuple.position.to_le_bytes(),
        &tuple.attrs.to_le_bytes(),
        &tuple.mask.to_le_bytes(),
        &[tuple.hoff],
    ];
    let mut at = offset;
    for field in fields {
        put_bytes(page, at, field);
        at = at.saturating_add(field.len());
    }
}

/// An item: its offset, its kind and its length.
pub(crate) type Item = (u16, Kind, u16);

/// A page with these line pointers, whose free space ends at `upper`, and where a normal item's
/// offset leaves room, its tuple.
pub(crate) fn page_with(upper: u16, items: &[Item]) -> Page {
    let lower = (items.len() as u64)
        .saturating_mul(4)
        .saturating_add(24)
        .min(8192) as u16;
    let mut page = page_of(&[(BOUNDS, &bounds(lower, upper, 8192))]);
    let mut at = CONTENTS;
    for (offset, kind, length) in items {
        put_bytes(&mut page, at, &line_pointer_bytes(*offset, *kind, *length));
        at = at.saturating_add(4);
    }
    // The first last, so that of items that share bytes the first has its tuple.
    let mut number = items.len() as u64;
    for (offset, kind, _) in items.iter().rev() {
        if *kind == Kind::Normal {
            let item = number.min(2042) as u16;
            put_tuple(&mut page, usize::from(*offset), &tuple_of(item));
        }
        number = number.saturating_sub(1);
    }
    page
}

/// What is told of the page as this block of relation 3.
pub(crate) fn lines_of<R: Abort + AllocGlobal>(
    rt: &R,
    options: &CheckOptions,
    block: u32,
    page: &Page,
) -> Result<String, Fail> {
    let mut out = Vec::new(rt.alloc());
    let count = faults_text(options, 3, block, page, &mut out)?;
    let mut found: Vec<Fault> = Vec::new(rt.alloc());
    faults(options, block, page, &mut found)?;
    assert_eq!(rt; count, found.len());
    Ok(String::from_utf8(out).ok().ok_or("no text")?)
}
