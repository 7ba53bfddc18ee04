//! Blocks that the pool has, or that others read into it.

use crate::helpers::cases::{Blocks, CASE, Case, FULL};
use crate::helpers::rows::{ROW, Row, check_rows};
use page_fixtures::files::{Faults, STEADY};
use read_stream::Settings;
use std::test::Fail;

const NONE: Blocks<'static> = Blocks::These(&[]);

const AGAIN: Case<'static> = Case {
    blocks: 5,
    list: Blocks::These(&[(3, 7), (3, 8), (4, 9), (0, 1)]),
    ..CASE
};

const ROWS: [Row<'static>; 8] = [
    Row {
        name: "pages come from the pool again",
        case: AGAIN,
        pages: 4,
        reads: Some(&[(3, 1), (4, 1), (0, 1)]),
        taken: Some(3),
        ..ROW
    },
    Row {
        name: "pages of relation 1 come from the pool again",
        case: Case {
            relation: 1,
            ..AGAIN
        },
        pages: 4,
        reads: Some(&[(3, 1), (4, 1), (0, 1)]),
        taken: Some(3),
        ..ROW
    },
    Row {
        name: "a join gives the page that another backend reads",
        case: Case {
            blocks: 3,
            other: Some(NONE),
            list: Blocks::From(0, 3),
            ..CASE
        },
        pages: 3,
        reads: Some(&[(0, 1), (1, 2)]),
        taken: Some(1),
        ..ROW
    },
    Row {
        name: "a join waits for the generation of the other backend's read",
        case: Case {
            blocks: 3,
            handles: 1,
            other: Some(Blocks::From(2, 1)),
            list: Blocks::From(0, 3),
            ..CASE
        },
        pages: 3,
        reads: Some(&[(2, 1), (0, 1), (1, 1)]),
        taken: Some(1),
        ..ROW
    },
    Row {
        name: "a page that the pool had is joined where another backend reads it again",
        case: Case {
            blocks: 40,
            frames: 16,
            settings: FULL,
            between: Some(Blocks::From(20, 17)),
            first: Blocks::From(0, 1),
            list: Blocks::These(&[(1, 10), (0, 0)]),
            ..CASE
        },
        pages: 2,
        reads: Some(&[(0, 1), (1, 1), (20, 16), (36, 1), (0, 1)]),
        taken: Some(1),
        ..ROW
    },
    Row {
        name: "a failed join is read again",
        case: Case {
            blocks: 3,
            faults: Faults {
                reads: &[(0, 1)],
                ..STEADY
            },
            other: Some(NONE),
            list: Blocks::From(0, 3),
            ..CASE
        },
        pages: 3,
        taken: Some(2),
        ..ROW
    },
    Row {
        name: "a run is started where the pool has the next block",
        case: Case {
            blocks: 6,
            settings: Settings { limit: 4, ..FULL },
            first: Blocks::These(&[(2, 0), (3, 0), (5, 0)]),
            list: Blocks::These(&[(5, 0), (0, 0), (2, 0), (3, 0)]),
            ..CASE
        },
        pages: 4,
        reads: Some(&[(2, 2), (5, 1), (0, 1)]),
        taken: Some(1),
        heard: Some(1),
        ..ROW
    },
    // Block 0 is at hand, and 10 is read before the other backend reads 5.
    Row {
        name: "a batch is submitted before a page of the pool is given",
        case: Case {
            blocks: 32,
            settings: Settings {
                combine: 4,
                batch: true,
                ..FULL
            },
            first: Blocks::From(0, 1),
            between: Some(Blocks::From(5, 1)),
            list: Blocks::These(&[(0, 0), (10, 0), (20, 0)]),
            ..CASE
        },
        pages: 3,
        reads: Some(&[(0, 1), (10, 1), (5, 1), (20, 1)]),
        taken: Some(2),
        heard: Some(2),
        ..ROW
    },
];

// Of which reads the method hears beside a block that another backend reads.
const JOINS: [Row<'static>; 2] = [
    // The read of block 5 is begun while block 0 is still to be awaited, so it is not this thread's.
    Row {
        name: "a run is started where another backend reads the next block",
        case: Case {
            blocks: 6,
            settings: FULL,
            other: Some(NONE),
            list: Blocks::These(&[(5, 0), (0, 0)]),
            ..CASE
        },
        pages: 2,
        reads: Some(&[(5, 1), (0, 1)]),
        taken: Some(1),
        heard: Some(1),
        ..ROW
    },
    // The block at the front is another backend's to read, so the one read is not awaited at once.
    Row {
        name: "behind a join the method hears of a read",
        case: Case {
            blocks: 3,
            settings: FULL,
            other: Some(NONE),
            list: Blocks::These(&[(0, 0), (2, 0)]),
            ..CASE
        },
        pages: 2,
        reads: Some(&[(2, 1), (0, 1)]),
        taken: Some(1),
        heard: Some(1),
        ..ROW
    },
];

// How far the stream looks ahead where it finds blocks in the pool, or others read them.
const DISTANCES: [Row<'static>; 4] = [
    Row {
        name: "a block that another backend reads leaves the distance as it is",
        case: Case {
            blocks: 11,
            settings: Settings { combine: 4, ..FULL },
            other: Some(NONE),
            list: Blocks::EveryOther(6),
            ..CASE
        },
        pages: 6,
        reads: Some(&[(2, 1), (4, 1), (0, 1), (6, 1), (8, 1), (10, 1)]),
        taken: Some(5),
        ..ROW
    },
    // The wait for the other backend's read draws it out once, and the read alone once more.
    Row {
        name: "a block that is read alone draws the distance out",
        case: Case {
            blocks: 12,
            faults: Faults {
                reads: &[(0, 1)],
                ..STEADY
            },
            other: Some(NONE),
            list: Blocks::From(0, 12),
            ..CASE
        },
        pages: 12,
        reads: Some(&[(0, 1), (0, 1), (1, 4), (5, 7)]),
        taken: Some(3),
        ..ROW
    },
    Row {
        name: "look-ahead over a pool with every other block",
        case: Case {
            blocks: 32,
            settings: FULL,
            first: Blocks::EveryOther(16),
            list: Blocks::From(0, 32),
            ..CASE
        },
        pages: 32,
        reads: Some(&EVERY_OTHER),
        taken: Some(16),
        ..ROW
    },
    Row {
        name: "blocks of the pool draw the distance in",
        case: Case {
            blocks: 32,
            settings: FULL,
            first: Blocks::From(0, 16),
            list: Blocks::From(0, 32),
            ..CASE
        },
        pages: 32,
        reads: Some(&[(0, 16), (16, 1), (17, 2), (19, 4), (23, 8), (31, 1)]),
        ..ROW
    },
];

// The even blocks one by one, and then the odd ones.
const EVERY_OTHER: [(u32, u32); 32] = [
    (0, 1),
    (2, 1),
    (4, 1),
    (6, 1),
    (8, 1),
    (10, 1),
    (12, 1),
    (14, 1),
    (16, 1),
    (18, 1),
    (20, 1),
    (22, 1),
    (24, 1),
    (26, 1),
    (28, 1),
    (30, 1),
    (1, 1),
    (3, 1),
    (5, 1),
    (7, 1),
    (9, 1),
    (11, 1),
    (13, 1),
    (15, 1),
    (17, 1),
    (19, 1),
    (21, 1),
    (23, 1),
    (25, 1),
    (27, 1),
    (29, 1),
    (31, 1),
];

#[test]
fn blocks_that_the_pool_has_or_awaits(rt: HostRuntime) -> Result<(), Fail> {
    check_rows(&rt, ROWS.as_slice())
}

#[test]
fn reads_beside_a_join(rt: HostRuntime) -> Result<(), Fail> {
    check_rows(&rt, JOINS.as_slice())
}

#[test]
fn distances_beside_the_pool(rt: HostRuntime) -> Result<(), Fail> {
    check_rows(&rt, DISTANCES.as_slice())
}
