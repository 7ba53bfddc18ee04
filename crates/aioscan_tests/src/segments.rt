//! Relations of several segments.
use aioscan_fixtures::rows::check_rows;
use std::test::Fail;

// A `.` is a part of a block behind the blocks of a segment.
const ROWS: [&str; 6] = [
    "two whole segments and half of one | f:4E f.1:4E f.2:2E segment=4 | f | 0/0-9 | | 0 | \
     0/0+4=4 0/4+4=4 0/8+2=2",
    "a segment behind a short one does not count | f:3E f.1:2E segment=4 | f | 0/0-2 | | 0",
    "a part of a block is no block | f:4E. f.1:1E segment=4 | f | 0/0-4 | | 0",
    "a segment behind a long one does not count | f:5E f.1:2E segment=4 | f | 0/0-4 | | 0 | \
     0/0+4=4 0/4+1=1",
    "sixteen segments of one block | f:E f.1:E f.2:E f.3:E f.4:E f.5:E f.6:E f.7:E f.8:E f.9:E \
     f.10:E f.11:E f.12:E f.13:E f.14:E f.15:E segment=1 | f | 0/0-15 | | 0",
    "and one more | f:E f.1:E f.2:E f.3:E f.4:E f.5:E f.6:E f.7:E f.8:E f.9:E f.10:E f.11:E f.12:E \
     f.13:E f.14:E f.15:E f.16:E segment=1 | f | | relation 0 is too long | 7",
];

#[test]
fn segments_are_read_one_after_the_other(rt: HostRuntime) -> Result<(), Fail> {
    check_rows(&rt, "--method sync --backends 1 --full", &ROWS)
}

// `--from` and `--to` go over a segment's border, with either method.
#[test]
fn blocks_across_a_border(rt: HostRuntime) -> Result<(), Fail> {
    let rows = [
        "sync | f:4E f.1:4E f.2:2E segment=4 | --method sync --backends 1 f | 0/3-8 | | 0",
        "by workers | f:4E f.1:4E f.2:2E segment=4 | f | 0/3-8 | | 0",
        "at once | f:4E f.1:4E f.2:2E segment=4 | --full --backends 4 f | 0/3-8 | | 0",
    ];
    check_rows(&rt, "--from 3 --to 8", &rows)
}
