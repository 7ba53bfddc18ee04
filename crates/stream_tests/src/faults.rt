//! Reads that fail or are short.

use crate::helpers::answers::Answer;
use crate::helpers::cases::{Blocks, CASE, Case, FULL, SETTINGS};
use crate::helpers::rows::{ROW, Row, check_rows};
use page_fixtures::files::{Faults, STEADY};
use read_stream::Settings;
use std::test::Fail;

const SHORT: [Row<'static>; 3] = [
    Row {
        name: "short reads are taken up",
        case: Case {
            blocks: 16,
            faults: Faults {
                shorts: &[1, 2, 4, 9],
                ..STEADY
            },
            settings: FULL,
            list: Blocks::From(0, 16),
            ..CASE
        },
        pages: 16,
        reads: Some(&[(0, 16), (1, 15), (3, 13), (7, 9)]),
        ..ROW
    },
    Row {
        name: "the rest of a short read draws the distance out",
        case: Case {
            blocks: 12,
            faults: Faults {
                shorts: &[1, 1],
                ..STEADY
            },
            list: Blocks::From(0, 12),
            ..CASE
        },
        pages: 12,
        reads: Some(&[(0, 1), (1, 2), (2, 1), (3, 8), (11, 1)]),
        ..ROW
    },
    // An earlier stream has read all four blocks, by two reads.
    Row {
        name: "the rest of a short read is in the pool",
        case: Case {
            blocks: 4,
            faults: Faults {
                shorts: &[1],
                ..STEADY
            },
            settings: Settings { combine: 4, ..FULL },
            first: Blocks::From(0, 4),
            list: Blocks::From(0, 4),
            ..CASE
        },
        pages: 4,
        reads: Some(&[(0, 4), (1, 3)]),
        taken: Some(0),
        ..ROW
    },
];

const FAILED: [Row<'static>; 4] = [
    Row {
        name: "a failed read stops the stream",
        case: Case {
            blocks: 5,
            faults: Faults {
                reads: &[(0, 3)],
                ..STEADY
            },
            settings: Settings {
                combine: 1,
                ios: 1,
                ..SETTINGS
            },
            list: Blocks::From(0, 5),
            ..CASE
        },
        pages: 2,
        end: Answer::Unread(2),
        ..ROW
    },
    Row {
        name: "a failed read in the middle of look-ahead",
        case: Case {
            blocks: 40,
            faults: Faults {
                reads: &[(0, 4)],
                ..STEADY
            },
            settings: Settings {
                combine: 2,
                limit: 16,
                ..FULL
            },
            list: Blocks::From(0, 40),
            ..CASE
        },
        pages: 6,
        end: Answer::Unread(6),
        ..ROW
    },
    Row {
        name: "the page of the pool comes before the block whose read failed early",
        case: Case {
            blocks: 16,
            faults: Faults {
                reads: &[(0, 2)],
                ..STEADY
            },
            handles: 1,
            settings: FULL,
            first: Blocks::These(&[(5, 50)]),
            list: Blocks::These(&[(5, 50), (0, 0), (2, 20), (4, 40)]),
            ..CASE
        },
        pages: 1,
        end: Answer::Unread(0),
        ..ROW
    },
    Row {
        name: "a read past the end",
        case: Case {
            blocks: 4,
            list: Blocks::From(0, 6),
            ..CASE
        },
        pages: 4,
        end: Answer::PastEnd(4),
        reads: Some(&[(0, 1), (1, 2), (3, 3), (4, 2)]),
        ..ROW
    },
];

#[test]
fn short_reads(rt: HostRuntime) -> Result<(), Fail> {
    check_rows(&rt, SHORT.as_slice())
}

#[test]
fn failed_reads_and_missing_blocks(rt: HostRuntime) -> Result<(), Fail> {
    check_rows(&rt, FAILED.as_slice())
}
