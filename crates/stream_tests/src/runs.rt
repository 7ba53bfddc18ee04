//! The runs that a stream reads.

use crate::helpers::cases::{Blocks, CASE, Case, FULL, SETTINGS};
use crate::helpers::rows::{ROW, Row, check_rows};
use page_fixtures::files::{Faults, STEADY};
use read_stream::Settings;
use std::test::Fail;

const SIXTY_FOUR: [(u32, u32); 8] = [
    (0, 1),
    (1, 2),
    (3, 4),
    (7, 8),
    (15, 16),
    (31, 16),
    (47, 16),
    (63, 1),
];

// Blocks 0 to 3 in one run, and then 4 and 5 in another, in batches.
const TWO_RUNS: Case<'static> = Case {
    blocks: 6,
    settings: Settings {
        combine: 4,
        batch: true,
        ..FULL
    },
    list: Blocks::From(0, 6),
    ..CASE
};

const ROWS: [Row<'static>; 5] = [
    Row {
        name: "runs grow with the distance",
        case: Case {
            blocks: 8,
            list: Blocks::From(0, 8),
            ..CASE
        },
        pages: 8,
        reads: Some(&[(0, 1), (1, 2), (3, 4), (7, 1)]),
        ..ROW
    },
    Row {
        name: "no read crosses a multiple of the segment size",
        case: Case {
            blocks: 10,
            settings: Settings {
                ios: 1,
                segment: 4,
                ..FULL
            },
            list: Blocks::From(0, 10),
            ..CASE
        },
        pages: 10,
        reads: Some(&[(0, 4), (4, 4), (8, 2)]),
        ..ROW
    },
    Row {
        name: "sixty-four blocks are eight runs",
        case: Case {
            blocks: 64,
            list: Blocks::From(0, 64),
            ..CASE
        },
        pages: 64,
        reads: Some(&SIXTY_FOUR),
        taken: Some(8),
        ..ROW
    },
    Row {
        name: "sixty-four blocks in batches",
        case: Case {
            blocks: 64,
            settings: Settings {
                batch: true,
                ..SETTINGS
            },
            list: Blocks::From(0, 64),
            ..CASE
        },
        pages: 64,
        reads: Some(&SIXTY_FOUR),
        ..ROW
    },
    Row {
        name: "the method hears of the runs that are read ahead",
        case: Case {
            blocks: 16,
            settings: Settings { combine: 4, ..FULL },
            list: Blocks::From(0, 16),
            ..CASE
        },
        pages: 16,
        reads: Some(&[(0, 4), (4, 4), (8, 4), (12, 4)]),
        taken: Some(4),
        heard: Some(3),
        ..ROW
    },
];

// Further ones.
const FURTHER_ROWS: [Row<'static>; 4] = [
    Row {
        name: "the method hears of a last read that is not yet known to be the last",
        case: Case {
            blocks: 2,
            settings: Settings {
                combine: 1,
                ..SETTINGS
            },
            list: Blocks::From(0, 2),
            ..CASE
        },
        pages: 2,
        heard: Some(1),
        ..ROW
    },
    Row {
        name: "in a batch it is known by then, and the method does not hear of it",
        case: Case {
            blocks: 2,
            settings: Settings {
                combine: 1,
                batch: true,
                ..SETTINGS
            },
            list: Blocks::From(0, 2),
            ..CASE
        },
        pages: 2,
        heard: Some(0),
        ..ROW
    },
    Row {
        name: "the method hears of what is staged before the rest of a short read",
        case: Case {
            faults: Faults {
                shorts: &[1],
                ..STEADY
            },
            ..TWO_RUNS
        },
        pages: 6,
        reads: Some(&[(0, 4), (4, 2), (1, 3)]),
        taken: Some(3),
        heard: Some(1),
        ..ROW
    },
    // Behind block 0 the distance is 2, and then 4: so blocks 1 and 2 are a batch, and 3 to 5.
    Row {
        name: "the method hears of each read of a batch, in their order",
        case: Case {
            blocks: 6,
            settings: Settings {
                combine: 1,
                batch: true,
                ..SETTINGS
            },
            list: Blocks::From(0, 6),
            ..CASE
        },
        pages: 6,
        reads: Some(&[(0, 1), (1, 1), (2, 1), (3, 1), (4, 1), (5, 1)]),
        taken: Some(6),
        heard: Some(5),
        ..ROW
    },
];

const ONE_HANDLE: Settings = Settings {
    combine: 2,
    limit: 32,
    ..SETTINGS
};

const MANY: [Row<'static>; 5] = [
    Row {
        name: "a stream without free handles goes on",
        case: Case {
            blocks: 40,
            handles: 1,
            settings: ONE_HANDLE,
            list: Blocks::From(0, 40),
            ..CASE
        },
        pages: 40,
        ..ROW
    },
    Row {
        name: "a stream without free handles goes on in batches",
        case: Case {
            blocks: 40,
            handles: 1,
            settings: Settings {
                batch: true,
                ..ONE_HANDLE
            },
            list: Blocks::From(0, 40),
            ..CASE
        },
        pages: 40,
        ..ROW
    },
    // What is staged when the one handle is out is begun by the method too.
    Row {
        name: "a stream without free handles has the method begin its reads",
        case: Case {
            blocks: 4,
            handles: 1,
            settings: Settings {
                combine: 1,
                batch: true,
                ..SETTINGS
            },
            list: Blocks::From(0, 4),
            ..CASE
        },
        pages: 4,
        reads: Some(&[(0, 1), (1, 1), (2, 1), (3, 1)]),
        taken: Some(4),
        heard: Some(3),
        ..ROW
    },
    // The second call takes blocks 4 and 5, and finds block 1 in the first read.
    Row {
        name: "the method hears of what is staged when the stream is closed",
        case: TWO_RUNS,
        pages: 6,
        calls: Some(2),
        reads: Some(&[(0, 4), (4, 2)]),
        taken: Some(2),
        heard: Some(1),
        ..ROW
    },
    Row {
        name: "a batch of more than thirty-two",
        case: Case {
            blocks: 200,
            handles: 64,
            settings: Settings {
                combine: 1,
                ios: 64,
                limit: 128,
                batch: true,
                ..SETTINGS
            },
            list: Blocks::From(0, 200),
            ..CASE
        },
        pages: 200,
        taken: Some(200),
        ..ROW
    },
];

#[test]
fn runs_that_are_read(rt: HostRuntime) -> Result<(), Fail> {
    check_rows(&rt, ROWS.as_slice())
}

#[test]
fn further_runs_that_are_read(rt: HostRuntime) -> Result<(), Fail> {
    check_rows(&rt, FURTHER_ROWS.as_slice())
}

#[test]
fn more_runs_than_handles_or_places_in_a_batch(rt: HostRuntime) -> Result<(), Fail> {
    check_rows(&rt, MANY.as_slice())
}
