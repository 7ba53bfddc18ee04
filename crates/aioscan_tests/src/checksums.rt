//! Pages whose checksums are verified. The numbers are those of a server: an empty page has 25952 as
//! block 0, 25951 as block 1 and 25954 as block 2.
use aioscan_fixtures::rows::check_rows;
use std::test::Fail;

const ONE_FILE: [&str; 9] = [
    "block 2 is a copy of block 1 | f:E@25952,E@25951,E@25951 | --checksums f | 0/0-1 | \
     invalid page 0 2 | 1",
    "the same by its header | f:E@25952,E@25951,E@25951 | f | 0/0-2 | | 0",
    "the same with zeros | f:E@25952,E@25951,E@25951 | --checksums --zero-damaged f | \
     0/0-1 0/2=new | zeroed page 0 2 | 0",
    "zeros by its header | f:E@25952,E@25951,E@25951 | --zero-damaged f | 0/0-2 | | 0",
    "each has its own | f:E@25952,E@25951,E@25954 | --checksums f | 0/0-2 | | 0",
    "no checksum | f:E | --checksums f | | invalid page 0 0 | 1",
    "a page of zeros | f:Z | --checksums f | 0/0=new | | 0",
    "an unknown flag, with its checksum | f:F@46020 | --checksums f | | invalid page 0 0 | 1",
    "the first block that is asked for | f:E,E@25951,E@25954 | --checksums --from 1 f | 0/1-2 | | 0",
];

#[test]
fn pages_of_one_file(rt: HostRuntime) -> Result<(), Fail> {
    check_rows(&rt, "", &ONE_FILE)
}

// Blocks are counted over all segments of a relation. A segment alone is counted from 0.
const SEGMENTS: [&str; 4] = [
    "two segments | f:E@25952,E@25951 f.1:E@25954 segment=2 | f | 0/0-2 | | 0",
    "block 0 of the second segment | f:E@25952,E@25951 f.1:E@25952 segment=2 | f | 0/0-1 | \
     invalid page 0 2 | 1",
    "the second segment alone | f.1:E@25954 | f.1 | | invalid page 0 0 | 1",
    "blocks of two relations | f:E@25952,E@25951 g:E@25952,E@25952 | f g | 0/0-1 1/0 | \
     invalid page 1 1 | 1",
];

#[test]
fn blocks_are_counted_over_all_segments(rt: HostRuntime) -> Result<(), Fail> {
    check_rows(&rt, "--checksums", &SEGMENTS)
}

// Several pages in one read. Block 21 has the checksum of block 20.
const COMBINED: [&str; 3] = [
    "40 pages | f:40E@own | f | 0/0-39 | | 0",
    "a wrong one within a read | f:21E@own,E@25932,18E@own | f | 0/0-20 | invalid page 0 21 | 1",
    "the same with zeros | f:21E@own,E@25932,18E@own | --zero-damaged f | \
     0/0-20 0/21=new 0/22-39 | zeroed page 0 21 | 0",
];

#[test]
fn pages_of_combined_reads(rt: HostRuntime) -> Result<(), Fail> {
    for words in [
        "--checksums --combine 16 --method sync",
        "--checksums --combine 16 --method worker",
        "--checksums --combine 16 --method ring",
        "--checksums --combine 16 --full --backends 1 --method sync",
        "--checksums --combine 16 --full --backends 1 --method worker",
        "--checksums --combine 16 --full --backends 1 --method ring",
    ] {
        check_rows(&rt, words, &COMBINED)?;
    }
    Ok(())
}

// An empty page as a map marks nothing. The second map has the checksum of block 1.
const MAPS: [&str; 4] = [
    "a map with its checksum | f:E@25952,E@25951,E@25954 m:E@25952 | --checksums --map m f | \
     0/0-2 | | 0",
    "one with another | f:E@25952,E@25951,E@25954 m:E@25951 | --checksums --map m f | | \
     invalid page 1 0 | 1",
    "the same with zeros | f:E@25952,E@25951,E@25954 m:E@25951 | \
     --checksums --zero-damaged --map m f | 0/0-2 | zeroed page 1 0 | 0",
    "the same by its header | f:E@25952,E@25951,E@25954 m:E@25951 | --map m f | 0/0-2 | | 0",
];

#[test]
fn pages_of_maps(rt: HostRuntime) -> Result<(), Fail> {
    check_rows(&rt, "", &MAPS)
}

// A file that is named twice: the second time its pages come from the pool.
#[test]
fn pages_of_the_pool(rt: HostRuntime) -> Result<(), Fail> {
    let rows = [
        "two backends and a small pool | f:40E@own | --backends 2 --buffers 16 f f | \
         0/0-39 0/0-39 | | 0",
        "each block is read once | f:E@25952,E@25951 | --method sync --backends 1 f f | \
         0/0-1 0/0-1 | | 0 | 0/0+1=1 0/1+1=1",
        "a wrong one is read each time | f:E@25951 | \
         --zero-damaged --method sync --backends 1 f f | 0/0=new 0/0=new | \
         zeroed page 0 0; zeroed page 0 0 | 0 | 0/0+1=1 0/0+1=1",
    ];
    check_rows(&rt, "--checksums", &rows)
}
