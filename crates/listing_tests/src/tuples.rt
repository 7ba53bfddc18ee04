//! Listings with the headers of tuples and their update chains.
use aioscan_fixtures::runs::{TestOutcome, check_outcome, run};
use page_fixtures::files::STEADY;
use page_fixtures::pages::{DAMAGED, EMPTY, Parts, ZEROS, bytes_of};
use row_fixtures::files::two_files;
use std::process::Abort;
use std::slice::from_ref;
use std::sync::Wait;
use std::test::Fail;
use std::thread::Threads;

// The header, from lower on, of a page of one item.
const ONE_ITEM: &[u8] = &[28, 0, 0xd8, 0x1f, 0, 32, 4, 32];

// The header of block 0 with three items, as a server with checksums writes it.
const WRITTEN: &[u8] = &[
    1, 2, 3, 4, 5, 6, 7, 8, 1, 0, 4, 0, 36, 0, 0x88, 0x1f, 0, 32, 4, 32,
];

// Its items, each of 40 bytes, at 8152, 8112 and 8072.
const THREE_ITEMS: &[u8] = &[
    0xd8, 0x9f, 0x50, 0, 0xb0, 0x9f, 0x50, 0, 0x88, 0x9f, 0x50, 0,
];

/// A tuple that was inserted, and not updated.
pub(crate) const ONE_TUPLE: Parts<'static> = &[
    (12, ONE_ITEM),
    (24, &[0xd8, 0x9f, 0x50, 0]),
    (
        8152,
        &[
            0xbc, 2, 0, 0, 0, 0, 0, 0, 0, 0, 0, 0, 0, 0, 0, 0, 1, 0, 2, 0, 2, 9, 24,
        ],
    ),
];

// A tuple of transaction 700, updated by 701, and again by 702.
const UPDATED_TWICE: Parts<'static> = &[
    (0, WRITTEN),
    (24, THREE_ITEMS),
    (
        8152,
        &[0xbc, 2, 0, 0, 0xbd, 2, 0, 0, 0, 0, 0, 0, 0, 0, 0, 0, 2, 0],
    ),
    (
        8112,
        &[0xbd, 2, 0, 0, 0xbe, 2, 0, 0, 0, 0, 0, 0, 0, 0, 0, 0, 3, 0],
    ),
    (
        8072,
        &[0xbe, 2, 0, 0, 0, 0, 0, 0, 0, 0, 0, 0, 0, 0, 0, 0, 3, 0],
    ),
];

// An item that ends behind the page.
const OUTSIDE: Parts<'static> = &[(12, ONE_ITEM), (24, &[0xf4, 0x9f, 0x50, 0])];

// Two tuples that step to each other, and one by itself.
const CIRCLE: Parts<'static> = &[
    (0, WRITTEN),
    (24, THREE_ITEMS),
    (
        8152,
        &[5, 0, 0, 0, 6, 0, 0, 0, 0, 0, 0, 0, 0, 0, 0, 0, 2, 0],
    ),
    (
        8112,
        &[6, 0, 0, 0, 5, 0, 0, 0, 0, 0, 0, 0, 0, 0, 0, 0, 1, 0],
    ),
    (
        8072,
        &[9, 0, 0, 0, 0, 0, 0, 0, 0, 0, 0, 0, 0, 0, 0, 0, 3, 0],
    ),
];

// A page of an index: special 8176, and an index tuple of 16 bytes at 8160.
const INDEX: Parts<'static> = &[
    (12, &[28, 0, 0xe0, 0x1f, 0xf0, 0x1f, 4, 32]),
    (24, &[0xe0, 0x9f, 0x20, 0]),
];

const ONE_TUPLE_TEXT: &str = "page 0 0 lower 28 upper 8152 special 8192 items 1\n\
     item 1 normal 8152 40\n\
     tuple 1 xmin 700 xmax 0 field3 0 ctid (0,1) attrs 2 mask 2306 hoff 24\n\
     chains 1 longest 1\n";

// Lists `f` and `g` with tuples, by each method, and compares the output, what is said of it and
// the status.
fn expect<R: Abort + AllocGlobal + Threads + Wait + Sync>(
    rt: &R,
    name: &str,
    files: (&[Parts<'_>], &[Parts<'_>]),
    words: &str,
    wanted: TestOutcome<'_>,
) -> Result<(), Fail> {
    let alloc = rt.alloc();
    for method in ["--method worker", "--method sync --backends 1"] {
        let (f, g) = (bytes_of(alloc, files.0)?, bytes_of(alloc, files.1)?);
        let line = format!(in alloc; "{method} --tuples {words}")?;
        let all = two_files(alloc, ("f", f), ("g", g))?;
        let done = run(rt, all, STEADY, line.as_str(), (&[], &[]))?;
        check_outcome(name, &done, wanted)?;
    }
    Ok(())
}

const PAGES: [(&str, Parts<'static>, &str); 7] = [
    ("one tuple", ONE_TUPLE, ONE_TUPLE_TEXT),
    (
        "a chain of three",
        UPDATED_TWICE,
        "page 0 0 lower 36 upper 8072 special 8192 items 3\n\
         item 1 normal 8152 40\n\
         tuple 1 xmin 700 xmax 701 field3 0 ctid (0,2) attrs 0 mask 0 hoff 0 step 2\n\
         item 2 normal 8112 40\n\
         tuple 2 xmin 701 xmax 702 field3 0 ctid (0,3) attrs 0 mask 0 hoff 0 step 3\n\
         item 3 normal 8072 40\n\
         tuple 3 xmin 702 xmax 0 field3 0 ctid (0,3) attrs 0 mask 0 hoff 0\n\
         chains 1 longest 3\n",
    ),
    (
        "an item that ends behind the page",
        OUTSIDE,
        "page 0 0 lower 28 upper 8152 special 8192 items 1\n\
         item 1 normal 8180 40\n\
         tuple 1 outside\n\
         chains 0 longest 0\n",
    ),
    (
        "a circle has no root",
        CIRCLE,
        "page 0 0 lower 36 upper 8072 special 8192 items 3\n\
         item 1 normal 8152 40\n\
         tuple 1 xmin 5 xmax 6 field3 0 ctid (0,2) attrs 0 mask 0 hoff 0 step 2\n\
         item 2 normal 8112 40\n\
         tuple 2 xmin 6 xmax 5 field3 0 ctid (0,1) attrs 0 mask 0 hoff 0 step 1\n\
         item 3 normal 8072 40\n\
         tuple 3 xmin 9 xmax 0 field3 0 ctid (0,3) attrs 0 mask 0 hoff 0\n\
         chains 1 longest 1\n",
    ),
    ("a page of zeros", ZEROS, "page 0 0 new\n"),
    (
        "an empty page",
        EMPTY,
        "page 0 0 lower 24 upper 8192 special 8192 items 0\nchains 0 longest 0\n",
    ),
    (
        "a page of an index",
        INDEX,
        "page 0 0 lower 28 upper 8160 special 8176 items 1\n\
         item 1 normal 8160 16\n\
         tuple 1 outside\n\
         chains 0 longest 0\n",
    ),
];

#[test]
fn pages_with_their_tuples(rt: HostRuntime) -> Result<(), Fail> {
    for (name, parts, text) in PAGES {
        expect(&rt, name, (from_ref(&parts), &[]), "f", (text, "", 0))?;
    }
    Ok(())
}

// In block 1 of relation 1 no tuple steps, since each names a tuple of block 0.
#[test]
fn tuples_of_several_files(rt: HostRuntime) -> Result<(), Fail> {
    let mut text = String::from_str(rt.alloc(), ONE_TUPLE_TEXT)?;
    text.push_str(
        "page 1 0 new\n\
         page 1 1 lower 36 upper 8072 special 8192 items 3\n\
         item 1 normal 8152 40\n\
         tuple 1 xmin 700 xmax 701 field3 0 ctid (0,2) attrs 0 mask 0 hoff 0\n\
         item 2 normal 8112 40\n\
         tuple 2 xmin 701 xmax 702 field3 0 ctid (0,3) attrs 0 mask 0 hoff 0\n\
         item 3 normal 8072 40\n\
         tuple 3 xmin 702 xmax 0 field3 0 ctid (0,3) attrs 0 mask 0 hoff 0\n\
         chains 3 longest 1\n",
    )?;
    text.push_str(ONE_TUPLE_TEXT)?;
    let files: (&[Parts<'_>], &[Parts<'_>]) = (&[ONE_TUPLE], &[ZEROS, UPDATED_TWICE]);
    let wanted = (text.as_str(), "", 0);
    expect(&rt, "three files", files, "f g f", wanted)
}

#[test]
fn tuples_up_to_an_invalid_page(rt: HostRuntime) -> Result<(), Fail> {
    let files: (&[Parts<'_>], &[Parts<'_>]) = (&[ONE_TUPLE, DAMAGED], &[]);
    let stopped = (ONE_TUPLE_TEXT, "invalid page 0 1\n", 1);
    expect(&rt, "an invalid page", files, "f", stopped)?;
    let mut text = String::from_str(rt.alloc(), ONE_TUPLE_TEXT)?;
    text.push_str("page 0 1 new\n")?;
    let zeroed = (text.as_str(), "zeroed page 0 1\n", 0);
    expect(&rt, "zeros in its place", files, "--zero-damaged f", zeroed)
}
