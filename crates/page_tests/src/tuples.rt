//! Texts of pages with tuples, beside texts that are written out or made by a plain rule.
use heap_tuple::{TupleHeader, step, tuple, tuples_text};
use page_check::{Kind, Page, Verdict, check, count};
use page_fixtures::pages::{
    BOUNDS, CONTENTS, Parts, ZEROS, bounds, line_pointer_bytes, page_of, put_bytes, valid_page_of,
};
use std::process::Abort;
use std::test::Fail;

fn put_parts(page: &mut Page, offset: usize, parts: Parts<'_>) {
    for (place, bytes) in parts {
        put_bytes(page, offset.saturating_add(*place), bytes);
    }
}

/// Writes the header of a tuple at an offset.
pub(crate) fn put_header(page: &mut Page, offset: usize, header: &TupleHeader) {
    let (high, low) = ((header.block >> 16) as u16, (header.block & 0xffff) as u16);
    put_parts(
        page,
        offset,
        &[
            (0, &header.xmin.to_le_bytes()),
            (4, &header.xmax.to_le_bytes()),
            (8, &header.field3.to_le_bytes()),
            (12, &high.to_le_bytes()),
            (14, &low.to_le_bytes()),
            (16, &header.position.to_le_bytes()),
            (18, &header.attrs.to_le_bytes()),
            (20, &header.mask.to_le_bytes()),
            (22, &[header.hoff]),
        ],
    );
}

/// A header that steps to a position of block 0, with zeros in the other fields.
pub(crate) fn header_with(xmin: u32, xmax: u32, position: u16) -> TupleHeader {
    TupleHeader {
        xmin,
        xmax,
        field3: 0,
        block: 0,
        position,
        attrs: 0,
        mask: 0,
        hoff: 0,
    }
}

/// The text of a page of relation 0 at block 0.
pub(crate) fn text_of<R: Abort + AllocGlobal>(rt: &R, page: &Page) -> Result<Vec<u8>, Fail> {
    let mut out = Vec::new(rt.alloc());
    assert!(rt; check(page) != Verdict::Bad);
    tuples_text(0, 0, page, &mut out)?;
    Ok(out)
}

// What the table below has of a page: lower, upper and special, line pointers, and headers of 40
// bytes each from the end of the page on.
type Worked<'a> = ((u16, u16, u16), &'a [u8], &'a [TupleHeader]);

const THREE_ITEMS: &[u8] = &[
    0xd8, 0x9f, 0x50, 0, 0xb0, 0x9f, 0x50, 0, 0x88, 0x9f, 0x50, 0,
];

fn worked_page(((lower, upper, special), items, headers): Worked<'_>) -> Page {
    let bounds = bounds(lower, upper, special);
    let mut page = page_of(&[(BOUNDS, &bounds), (CONTENTS, items)]);
    for (offset, header) in [8152usize, 8112, 8072].iter().zip(headers) {
        put_header(&mut page, *offset, header);
    }
    page
}

// One tuple as a server writes it.
const ONE: &[TupleHeader] = &[TupleHeader {
    xmin: 700,
    xmax: 0,
    field3: 0,
    block: 0,
    position: 1,
    attrs: 2,
    mask: 2306,
    hoff: 24,
}];

#[test]
fn worked_tuples(rt: HostRuntime) -> Result<(), Fail> {
    let chain = [
        header_with(700, 701, 2),
        header_with(701, 702, 3),
        header_with(702, 0, 3),
    ];
    let circle = [
        header_with(5, 6, 2),
        header_with(6, 5, 1),
        header_with(9, 0, 3),
    ];
    let rows: [(&str, Worked<'_>, &str); 7] = [
        (
            "one tuple",
            ((28, 8152, 8192), &[0xd8, 0x9f, 0x50, 0], ONE),
            "page 0 0 lower 28 upper 8152 special 8192 items 1\n\
             item 1 normal 8152 40\n\
             tuple 1 xmin 700 xmax 0 field3 0 ctid (0,1) attrs 2 mask 2306 hoff 24\n\
             chains 1 longest 1\n",
        ),
        (
            "a chain of three",
            ((36, 8072, 8192), THREE_ITEMS, &chain),
            "page 0 0 lower 36 upper 8072 special 8192 items 3\n\
             item 1 normal 8152 40\n\
             tuple 1 xmin 700 xmax 701 field3 0 ctid (0,2) attrs 0 mask 0 hoff 0 step 2\n\
             item 2 normal 8112 40\n\
             tuple 2 xmin 701 xmax 702 field3 0 ctid (0,3) attrs 0 mask 0 hoff 0 step 3\n\
             item 3 normal 8072 40\n\
             tuple 3 xmin 702 xmax 0 field3 0 ctid (0,3) attrs 0 mask 0 hoff 0\n\
             chains 1 longest 3\n",
        ),
        (
            "past the end is outside",
            ((28, 8152, 8192), &[0xf4, 0x9f, 0x50, 0], &[]),
            "page 0 0 lower 28 upper 8152 special 8192 items 1\n\
             item 1 normal 8180 40\n\
             tuple 1 outside\n\
             chains 0 longest 0\n",
        ),
        (
            "a circle has no root",
            ((36, 8072, 8192), THREE_ITEMS, &circle),
            "page 0 0 lower 36 upper 8072 special 8192 items 3\n\
             item 1 normal 8152 40\n\
             tuple 1 xmin 5 xmax 6 field3 0 ctid (0,2) attrs 0 mask 0 hoff 0 step 2\n\
             item 2 normal 8112 40\n\
             tuple 2 xmin 6 xmax 5 field3 0 ctid (0,1) attrs 0 mask 0 hoff 0 step 1\n\
             item 3 normal 8072 40\n\
             tuple 3 xmin 9 xmax 0 field3 0 ctid (0,3) attrs 0 mask 0 hoff 0\n\
             chains 1 longest 1\n",
        ),
        (
            "no tuples: a redirect and a dead item",
            ((32, 8152, 8192), &[5, 0, 1, 0, 0, 0x80, 1, 0], &[]),
            "page 0 0 lower 32 upper 8152 special 8192 items 2\n\
             item 1 redirect 5 0\nitem 2 dead 0 0\nchains 0 longest 0\n",
        ),
        (
            "an empty page",
            ((24, 8192, 8192), &[], &[]),
            "page 0 0 lower 24 upper 8192 special 8192 items 0\nchains 0 longest 0\n",
        ),
        (
            "a page of an index, with an index tuple of 16 bytes",
            ((28, 8160, 8176), &[0xe0, 0x9f, 0x20, 0], &[]),
            "page 0 0 lower 28 upper 8160 special 8176 items 1\n\
             item 1 normal 8160 16\ntuple 1 outside\nchains 0 longest 0\n",
        ),
    ];
    for (name, worked, wanted) in rows {
        let text = text_of(&rt, &worked_page(worked))?;
        assert_eq!(rt; text.as_slice(), wanted.as_bytes(), "{name}");
    }
    Ok(())
}

#[test]
fn a_new_page_has_one_line(rt: HostRuntime) -> Result<(), Fail> {
    let text = text_of(&rt, &page_of(ZEROS))?;
    assert_eq!(rt; text.as_slice(), "page 0 0 new\n".as_bytes());
    Ok(())
}

#[test]
fn fields_are_little_endian(rt: HostRuntime) -> Result<(), Fail> {
    let bytes: [u8; 23] = [
        4, 3, 2, 1, 8, 7, 6, 5, 12, 11, 10, 9, 0x02, 0x01, 0x04, 0x03, 0x06, 0x05, 0xff, 0xff,
        0x0a, 0x09, 0x0b,
    ];
    let wanted = TupleHeader {
        xmin: 0x0102_0304,
        xmax: 0x0506_0708,
        field3: 0x090a_0b0c,
        block: 0x0102_0304,
        position: 0x0506,
        attrs: 2047,
        mask: 0x090a,
        hoff: 0x0b,
    };
    let bounds = bounds(28, 8152, 8192);
    let Some(page) = valid_page_of(&[
        (BOUNDS, &bounds),
        (CONTENTS, &[0xd8, 0x9f, 0x50, 0]),
        (8152, &bytes),
    ]) else {
        panic!(rt; "the page is invalid")
    };
    assert!(rt; count(&page) == 1);
    assert_eq!(rt; tuple(&page, 0), Some(wanted));
    assert_eq!(rt; step(&page, 0, 0), None);
    Ok(())
}

// A tuple whose numbers have from one to ten digits, by its index. It steps nowhere: its position is
// its own.
fn varied(index: u16) -> TupleHeader {
    let number = u32::from(index);
    TupleHeader {
        xmin: 9_990 + number,
        xmax: if index % 3 == 0 { 0 } else { u32::MAX - number },
        field3: number.wrapping_mul(104_729),
        block: number / 2 * 65_535,
        position: index.saturating_add(1),
        attrs: index % 2048,
        mask: index.wrapping_mul(225),
        hoff: (index % 256) as u8,
    }
}

// The text of a page of so many tuples of 24 bytes, beside the plain rule's.
fn check_tuples<R: Abort + AllocGlobal>(rt: &R, items: u16) -> Result<(), Fail> {
    let items = items.min(291);
    let (lower, upper) = (24 + 4 * items, 8192 - 24 * items);
    let mut page = page_of(&[(BOUNDS, &bounds(lower, upper, 8192))]);
    let mut wanted = String::new(rt.alloc());
    writeln!(
        wanted,
        "page 0 0 lower {lower} upper {upper} special 8192 items {items}"
    )?;
    for index in 0..items {
        let number = index + 1;
        let offset = 8192 - 24 * number;
        let pointer = line_pointer_bytes(offset, Kind::Normal, 24);
        put_bytes(&mut page, CONTENTS + 4 * usize::from(index), &pointer);
        let header = varied(index);
        put_header(&mut page, usize::from(offset), &header);
        writeln!(wanted, "item {number} normal {offset} 24")?;
        let TupleHeader {
            xmin,
            xmax,
            field3,
            block,
            position,
            attrs,
            mask,
            hoff,
        } = header;
        write!(
            wanted,
            "tuple {number} xmin {xmin} xmax {xmax} field3 {field3}"
        )?;
        write!(wanted, " ctid ({block},{position}) attrs {attrs}")?;
        writeln!(wanted, " mask {mask} hoff {hoff}")?;
    }
    writeln!(wanted, "chains {items} longest {}", items.min(1))?;
    let text = text_of(rt, &page)?;
    assert_eq!(rt;
        text.as_slice(),
        wanted.as_str().as_bytes(),
        "{items} items"
    );
    Ok(())
}

// Pages of so many tuples as are written at a time, of fewer and of more, up to as many as a page
// has room for.
#[test]
fn tuples_up_to_291(rt: HostRuntime) -> Result<(), Fail> {
    for items in [0u16, 1, 7, 8, 9, 16, 17, 64, 65, 128, 226, 291] {
        check_tuples(&rt, items)?;
    }
    Ok(())
}
