//! The reads of scans that leave out the blocks that a visibility map marks.
use aioscan_fixtures::rows::check_rows;
use std::test::Fail;

// By maps `m`: a page `M` marks blocks 0, 1 and 3 as visible, and 4 as visible and frozen. Only the
// pages of the map are read that have bits of blocks that are asked for.
const ROWS: [&str; 12] = [
    "blocks that are visible | f:8E m:M | f | 0/2 0/5-7 | totals 4 | 0 | \
     1/0+1=1 0/2+1=1 0/5+2=2 0/7+1=1",
    "blocks that are frozen | f:8E m:M | --skip frozen f | 0/0-3 0/5-7 | totals 5 | 0 | \
     1/0+1=1 0/0+1=1 0/1+2=2 0/3+1=1 0/5+3=3",
    "a map without pages | f:8E m: | f | 0/0-7 | totals 4 | 0 | 0/0+1=1 0/1+2=2 0/3+4=4 0/7+1=1",
    "an invalid map | f:8E m:F | f | | invalid page 1 0; totals 1 | 1 | 1/0+1=1",
    "an invalid map as zeros | f:8E m:F | --zero-damaged f | 0/0-7 | \
     zeroed page 1 0; totals 5 | 0 | 1/0+1=1 0/0+1=1 0/1+2=2 0/3+4=4 0/7+1=1",
    "one block is left | f:8E m:M | --from 3 --to 5 f | 0/5 | totals 2 | 0 | 1/0+1=1 0/5+1=1",
    "no block is left | f:8E m:M | --from 3 --to 4 f | | totals 1 | 0 | 1/0+1=1",
    "up to the end of the file | f:8E m:M | --from 5 --to 8 f | 0/5-7 | no page 0 8; totals 4 | 6 | \
     1/0+1=1 0/5+1=1 0/6+2=2 0/8+1=0",
    "no block is asked for | f:8E m:D | --from 5 --to 4 f | | totals 0 | 0 | none",
    "no block behind the end | f:8E m:D | --from 8 f | | totals 0 | 0 | none",
    "the second page has bits of no block | f:8E m:ED | --from 7 f | 0/7 | totals 2 | 0 | \
     1/0+1=1 0/7+1=1",
    "a map of zeros | f:8E m:Z | --zero-damaged --to 0 f | 0/0 | totals 2 | 0 | 1/0+1=1 0/0+1=1",
];

#[test]
fn reads_by_a_map(rt: HostRuntime) -> Result<(), Fail> {
    check_rows(&rt, "--method sync --backends 1 --stats --map m", &ROWS)
}

// Blocks 32671 and 32672 have their bits on the first and on the second page of a map: a page `L`
// marks the one as visible and frozen, a page `O` the other as visible.
const TWO_PAGES: [&str; 7] = [
    "none | f:8E m:EE | --from 32671 --to 32672 f | | no page 0 32671; totals 3 | 6 | \
     1/0+1=1 1/1+1=1 0/32671+1=0",
    "the first block | f:8E m:LE | --from 32671 --to 32672 f | | no page 0 32672; totals 3 | 6 | \
     1/0+1=1 1/1+1=1 0/32672+1=0",
    "both | f:8E m:LO | --from 32671 --to 32672 f | | totals 2 | 0 | 1/0+1=1 1/1+1=1",
    "no second page | f:8E m:L | --from 32671 --to 32672 f | | no page 0 32672; totals 2 | 6 | \
     1/0+1=1 0/32672+1=0",
    "a damaged second page | f:8E m:LD | --from 32671 --to 32672 f | | \
     invalid page 1 1; totals 2 | 1 | 1/0+1=1 1/1+1=1",
    "zeros in its place | f:8E m:LD | --zero-damaged --from 32671 --to 32672 f | | \
     zeroed page 1 1; no page 0 32672; totals 3 | 6 | 1/0+1=1 1/1+1=1 0/32672+1=0",
    "it is not needed | f:8E m:LD | --skip frozen --from 32671 --to 32671 f | | totals 1 | 0 | \
     1/0+1=1",
];

#[test]
fn maps_of_two_pages(rt: HostRuntime) -> Result<(), Fail> {
    check_rows(
        &rt,
        "--method sync --backends 1 --stats --map m",
        &TWO_PAGES,
    )
}
