//! Pages of one file, and words that are no command.
use aioscan_cmd::Line;
use aioscan_fixtures::rows::check_rows;
use aioscan_fixtures::runs::{TestOutcome, check_outcome, check_over, run, run_over};
use page_fixtures::files::{Faults, STEADY, one_file};
use page_fixtures::pages::{BOUNDS, CONTENTS, EMPTY, FLAGS, Parts, bounds, bytes_of};
use std::process::Abort;
use std::sync::Wait;
use std::test::Fail;
use std::thread::Threads;

/// The line of the first block of relation 0, an empty page.
const E_LINE: &str = "page 0 0 lower 24 upper 8192 special 8192 items 0\n";

const USAGE: &str = "usage: aioscan [options] FILE...\n";

// A run over the file `f`.
fn expect<R: Abort + AllocGlobal + Threads + Wait + Sync>(
    rt: &R,
    name: &str,
    parts: Parts<'_>,
    line: &str,
    wanted: TestOutcome<'_>,
) -> Result<(), Fail> {
    let done = run_over(rt, bytes_of(rt.alloc(), &[parts])?, STEADY, line)?;
    check_outcome(name, &done, wanted)?;
    assert_eq!(rt; done.report.line, Line::Whole, "{name}");
    Ok(())
}

// A body that always answers that there is no memory gives no listing.
#[test]
fn always_out_of_memory(rt: HostRuntime) -> Result<(), Fail> {
    expect(&rt, "one empty page", EMPTY, "f", (E_LINE, "", 0))
}

/// The flags, the fields lower, upper and special, and how many items are listed, or nothing where
/// the page is invalid.
const HEADERS: [(&str, u16, (u16, u16, u16), Option<u16>); 12] = [
    ("flags 8", 8, (24, 8192, 8192), None),
    ("flags 7", 7, (24, 8192, 8192), Some(0)),
    ("flags 0xffff", 0xffff, (24, 8192, 8192), None),
    ("special 8188", 0, (24, 8184, 8188), None),
    ("special 8184", 0, (24, 8184, 8184), Some(0)),
    ("special 8200", 0, (24, 8192, 8200), None),
    ("lower 20", 0, (20, 8192, 8192), Some(0)),
    ("lower 8193", 0, (8193, 8192, 8192), None),
    ("lower 65535", 0, (65535, 8192, 8192), None),
    ("upper 23", 0, (24, 23, 8192), None),
    ("lower 0", 0, (0, 8192, 8192), Some(0)),
    ("lower 0, upper 1", 0, (0, 1, 8192), Some(0)),
];

#[test]
fn headers_one_by_one(rt: HostRuntime) -> Result<(), Fail> {
    for (name, flags, (lower, upper, special), listed) in HEADERS {
        let mut text = String::new(rt.alloc());
        let (said, status) = match listed {
            Some(items) => {
                write!(text, "page 0 0 lower {lower} upper {upper}")?;
                writeln!(text, " special {special} items {items}")?;
                ("", 0)
            }
            None => ("invalid page 0 0\n", 1),
        };
        let wanted = (text.as_str(), said, status);
        let flags = flags.to_le_bytes();
        let parts: Parts<'_> = &[(FLAGS, &flags), (BOUNDS, &bounds(lower, upper, special))];
        expect(&rt, name, parts, "f", wanted)?;
        expect(&rt, name, parts, "--method sync --backends 1 f", wanted)?;
    }
    Ok(())
}

/// The fields lower and upper, a line pointer, and what is listed of it.
const ITEMS: [(&str, (u16, u16), [u8; 4], &str); 4] = [
    (
        "one normal item",
        (28, 8152),
        [0xd8, 0x9f, 0x50, 0],
        "normal 8152 40",
    ),
    ("one redirect", (28, 8152), [5, 0, 1, 0], "redirect 5 0"),
    ("one dead", (28, 8152), [0, 0x80, 1, 0], "dead 0 0"),
    ("lower 30", (30, 8192), [0, 0, 0, 0], "unused 0 0"),
];

#[test]
fn items_one_by_one(rt: HostRuntime) -> Result<(), Fail> {
    for (name, (lower, upper), item, listed) in ITEMS {
        let mut text = String::new(rt.alloc());
        write!(text, "page 0 0 lower {lower} upper {upper}")?;
        writeln!(text, " special 8192 items 1\nitem 1 {listed}")?;
        let parts: Parts<'_> = &[(BOUNDS, &bounds(lower, upper, 8192)), (CONTENTS, &item)];
        expect(&rt, name, parts, "f", (text.as_str(), "", 0))?;
    }
    Ok(())
}

#[test]
fn as_many_items_as_a_page_can_have(rt: HostRuntime) -> Result<(), Fail> {
    let alloc = rt.alloc();
    let mut wanted = String::from_str(alloc, "page 0 0 lower 8192 upper 8192 ")?;
    wanted.push_str("special 8192 items 2042\n")?;
    for number in 1..2043 {
        writeln!(wanted, "item {number} unused 0 0")?;
    }
    let page: Parts<'_> = &[(12, &[0, 32, 0, 32, 0, 32, 4, 32])];
    expect(&rt, "2042 items", page, "f", (wanted.as_str(), "", 0))
}

#[test]
fn pages_of_zeros_and_no_page(rt: HostRuntime) -> Result<(), Fail> {
    let rows = [
        "a page of zeros | f:Z | f | 0/0=new | | 0",
        "zeros but one byte | f:D | f | | invalid page 0 0 | 1",
        "no byte | f: | f | | | 0",
    ];
    check_rows(&rt, "", &rows)
}

#[test]
fn a_part_of_a_block_is_no_block(rt: HostRuntime) -> Result<(), Fail> {
    let file = vec![in rt.alloc(); 0u8; 8191]?;
    let _ = check_over(&rt, file, STEADY, "f", ("", "", 0))?;
    Ok(())
}

#[test]
fn an_error_stream_that_fails_after_3_bytes(rt: HostRuntime) -> Result<(), Fail> {
    let files = one_file(rt.alloc(), "f", bytes_of(rt.alloc(), &[EMPTY])?)?;
    let read_1 = Faults {
        reads: &[(0, 1)],
        ..STEADY
    };
    let line = "--method sync --backends 1 --stats f";
    let done = run(&rt, files, read_1, line, (&[], &[(1, 3)]))?;
    check_outcome(line, &done, ("", "unr", 3))?;
    assert_eq!(rt; done.report.line, Line::Cut);
    Ok(())
}

#[test]
fn words_that_are_no_command(rt: HostRuntime) -> Result<(), Fail> {
    let lines = [
        "",
        "--combine 0 f",
        "--combine 129 f",
        "--backends 17 f",
        "--make 10 f",
        "--tuples --make 10",
        "--checksums --make 3",
        "--checksums --checksums f",
        "--checksums=1 f",
        "--full",
        "--from +1 f",
        "--from 2097152 f",
        "--full --full f",
        "f ''",
    ];
    for line in lines {
        expect(&rt, line, EMPTY, line, ("", USAGE, 2))?;
    }
    Ok(())
}
