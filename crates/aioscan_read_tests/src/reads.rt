//! Which reads a run makes.
use aioscan_fixtures::rows::{check_row, check_rows};
use std::test::Fail;

// Runs of one backend, with the totals.
const ROWS: [&str; 8] = [
    "runs grow with the distance | f:8E | --method sync f | 0/0-7 | totals 4 | 0 | \
     0/0+1=1 0/1+2=2 0/3+4=4 0/7+1=1",
    "up to 16 blocks, in jobs of 64 | f:66E | --method sync f | 0/0-65 | totals 10 | 0 | \
     0/0+1=1 0/1+2=2 0/3+4=4 0/7+8=8 0/15+16=16 0/31+16=16 0/47+16=16 0/63+1=1 0/64+1=1 0/65+1=1",
    "reads that are waited for at once stay with the backend | f:31E | --workers 1 f | 0/0-30 | \
     totals 5 | 0 | 0/0+1=1 0/1+2=2 0/3+4=4 0/7+8=8 0/15+16=16",
    "short reads under --full | f:16E short=1 short=2 short=4 short=9 | --method sync --full f | \
     0/0-15 | totals 4 | 0 | 0/0+16=1 0/1+15=2 0/3+13=4 0/7+9=9",
    "the same by a ring, which has one read at a time | f:16E short=1 short=2 short=4 short=9 | \
     --method ring --full f | 0/0-15 | totals 4 | 0 | 0/0+16=1 0/1+15=2 0/3+13=4 0/7+9=9",
    "two short reads with one I/O at a time | f:8E short=1 short=2 short=2 | \
     --method sync --concurrency 1 f | 0/0-7 | totals 5 | 0 | \
     0/0+1=1 0/1+2=2 0/3+4=2 0/5+2=2 0/7+1=1",
    "no run is longer than the frames | f:32E | \
     --method sync --full --combine 32 --buffers 16 f | 0/0-31 | totals 2 | 0 | \
     0/0+16=16 0/16+16=16",
    "a file twice is read once | f:2E | --method sync f f | 0/0-1 0/0-1 | totals 2 | 0 | \
     0/0+1=1 0/1+1=1",
];

#[test]
fn reads_of_one_backend(rt: HostRuntime) -> Result<(), Fail> {
    check_rows(&rt, "--backends 1 --stats", &ROWS)
}

// Reads of eight pages that fail or are short.
const FAULTS: [&str; 7] = [
    "the first read fails | f:8E read=1 | f | | unread page 0 0; totals 1 | 3",
    "the second read fails | f:8E read=2 | f | 0/0 | unread page 0 1; totals 2 | 3",
    "the third read fails | f:8E read=3 | f | 0/0-2 | unread page 0 3; totals 3 | 3",
    "the fourth read fails | f:8E read=4 | f | 0/0-6 | unread page 0 7; totals 4 | 3",
    "a read behind two short ones fails | f:8E short=1 short=1 read=3 | f | 0/0-1 | \
     unread page 0 2; totals 3 | 3",
    "two short reads, one behind the other | f:8E short=1 short=2 short=2 | f | 0/0-7 | \
     totals 5 | 0 | 0/0+1=1 0/1+2=2 0/3+4=2 0/7+1=1 0/5+2=2",
    "the rest of a short read is read while others are taken up | f:8E short=1 short=1 | f | \
     0/0-7 | totals 4 | 0 | 0/0+1=1 0/1+2=1 0/2+1=1 0/3+5=5",
];

#[test]
fn reads_of_one_backend_that_fail(rt: HostRuntime) -> Result<(), Fail> {
    check_rows(&rt, "--method sync --backends 1 --stats", &FAULTS)
}

// A file that is named twice has as many blocks as the pool has frames, so the second time each
// page is in the pool. The reads are of 1, 2, 4, 8 and then 16 blocks, in jobs of 64: so many. Of a
// file of more blocks the pool has lost the first ones by then, and each later one again before it
// is wanted.
const FRAMES: [(&str, u128); 5] = [
    (
        "17 frames | f:17E | --buffers 17 f f | 0/0-16 0/0-16 | | 0",
        5,
    ),
    (
        "40 frames | f:40E | --buffers 40 f f | 0/0-39 0/0-39 | | 0",
        6,
    ),
    (
        "64 frames | f:64E | --buffers 64 f f | 0/0-63 0/0-63 | | 0",
        8,
    ),
    ("128 frames | f:128E | f f | 0/0-127 0/0-127 | | 0", 16),
    (
        "16 frames of 64 blocks | f:64E | --buffers 16 f f | 0/0-63 0/0-63 | | 0",
        16,
    ),
];

#[test]
fn a_pool_keeps_as_many_pages_as_it_has_frames(rt: HostRuntime) -> Result<(), Fail> {
    for (row, reads) in FRAMES {
        let done = check_row(&rt, "--method sync --backends 1", row)?;
        assert_eq!(rt; done.report.incarnations, reads, "{row}");
    }
    Ok(())
}

// Several reads are in the ring together, and it takes a later one before an earlier one.
#[test]
fn a_ring_reads_in_its_own_order(rt: HostRuntime) -> Result<(), Fail> {
    let row = "a ring | f:16E | --backends 1 --full --combine 1 f | 0/0-15 | | 0";
    let done = check_row(&rt, "--method ring", row)?;
    let mut blocks = Vec::new(rt.alloc());
    for entry in done.shelf.log() {
        blocks.push(entry.first)?;
    }
    assert!(rt; !blocks.as_slice().is_sorted());
    Ok(())
}

// Two backends have shares of 1, 1, 2 and more jobs of 64 blocks each. Reads grow from 1 block to 16
// in a share: there are 8 for one job, and 12 for two, since one stream reads both. Then the first
// backend has read 256 blocks, and reads the last two jobs by 8.
#[test]
fn one_stream_reads_the_jobs_of_a_share(rt: HostRuntime) -> Result<(), Fail> {
    let rows = ["ten jobs | f:640E | --stats f | 0/0-639 | totals 64 | 0"];
    check_rows(&rt, "--method sync --backends 2", &rows)
}

// Beside a worker one backend has shares of 1, 1, 2, 4, 8, 8 and 8 jobs. Alone it has shares of one
// job. A share of the first 256 blocks has 4 reads more than its jobs have blocks by 16: 8 for one
// job, and 12 for two. Behind them the distance goes on, and each read has 16 blocks. Another
// relation begins anew, and so does the same one from its first block on.
const LONE: [(&str, u128); 6] = [
    (
        "beside a worker | f:640E | --workers 1 f | 0/0-639 | | 0",
        52,
    ),
    (
        "up to eight jobs | f:2048E | --workers 1 f | 0/0-2047 | | 0",
        140,
    ),
    ("alone | f:640E | --method sync f | 0/0-639 | | 0", 56),
    ("256 blocks | f:256E | --method sync f | 0/0-255 | | 0", 32),
    (
        "two relations | f:320E g:320E | --method sync f g | 0/0-319 1/0-319 | | 0",
        72,
    ),
    (
        "one relation twice | f:320E | --method sync --buffers 16 f f | 0/0-319 0/0-319 | | 0",
        72,
    ),
];

#[test]
fn one_backend_has_shares_of_many_jobs_beside_workers(rt: HostRuntime) -> Result<(), Fail> {
    for (row, reads) in LONE {
        let done = check_row(&rt, "--backends 1", row)?;
        assert_eq!(rt; done.report.incarnations, reads, "{row}");
    }
    Ok(())
}

// The page is in the second job of a share: the jobs before it are whole, and none comes behind it.
#[test]
fn a_stream_ends_within_a_job_of_a_share(rt: HostRuntime) -> Result<(), Fail> {
    let rows = ["ten jobs | f:330EF309E | f | 0/0-329 | invalid page 0 330 | 1"];
    check_rows(&rt, "--method sync --backends 2", &rows)
}

#[test]
fn an_invalid_page_behind_one_read(rt: HostRuntime) -> Result<(), Fail> {
    let rows = [
        "sync | f:12EFE | --method sync f | 0/10-11 | invalid page 0 12 | 1 | 0/10+4=4",
        "ring | f:12EFE | --method ring f | 0/10-11 | invalid page 0 12 | 1 | 0/10+4=4",
    ];
    check_rows(&rt, "--backends 1 --full --from 10 --to 13", &rows)
}
