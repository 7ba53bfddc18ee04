//! The batches in which a method hears of I/Os.

use crate::helpers::cases::{Blocks, CASE, Case, FULL, SETTINGS};
use crate::helpers::rows::{ROW, Row, check_rows};
use read_stream::Settings;
use std::test::Fail;

const SINGLE_BLOCKS: Settings = Settings {
    combine: 1,
    ios: 64,
    limit: 128,
    batch: true,
    ..SETTINGS
};

const ROWS: [Row<'static>; 5] = [
    // This thread reads block 0 itself. Then the distance is 2, and it doubles with each wait. So
    // batches of 2, 3, 5, 9 and 17 fill it up. Of the next 33 blocks 32 are a batch, and one is.
    Row {
        name: "a batch is of thirty-two I/Os at most, and begun as one",
        case: Case {
            blocks: 70,
            handles: 64,
            settings: SINGLE_BLOCKS,
            list: Blocks::From(0, 70),
            ..CASE
        },
        pages: 70,
        taken: Some(70),
        heard: Some(69),
        batches: Some(7),
        ..ROW
    },
    // One block less, and the last batch is of exactly 32.
    Row {
        name: "thirty-two I/Os are one batch",
        case: Case {
            blocks: 69,
            handles: 64,
            settings: SINGLE_BLOCKS,
            list: Blocks::From(0, 69),
            ..CASE
        },
        pages: 69,
        taken: Some(69),
        heard: Some(68),
        batches: Some(6),
        ..ROW
    },
    Row {
        name: "without batches each I/O is begun by itself",
        case: Case {
            blocks: 70,
            handles: 64,
            settings: Settings {
                batch: false,
                ..SINGLE_BLOCKS
            },
            list: Blocks::From(0, 70),
            ..CASE
        },
        pages: 70,
        heard: Some(69),
        batches: Some(69),
        ..ROW
    },
    // The distance is 4. Blocks 2 and 4 are staged when block 0 is awaited, and 6 and 8 behind it.
    Row {
        name: "a batch is submitted before another backend's read is awaited",
        case: Case {
            blocks: 10,
            settings: Settings {
                combine: 4,
                batch: true,
                ..FULL
            },
            other: Some(Blocks::These(&[])),
            list: Blocks::EveryOther(5),
            ..CASE
        },
        pages: 5,
        reads: Some(&[(2, 1), (4, 1), (0, 1), (6, 1), (8, 1)]),
        taken: Some(4),
        heard: Some(4),
        ..ROW
    },
    Row {
        name: "with one I/O under way each read is this thread's",
        case: Case {
            blocks: 5,
            settings: Settings {
                combine: 1,
                ios: 1,
                ..SETTINGS
            },
            list: Blocks::From(0, 5),
            ..CASE
        },
        pages: 5,
        heard: Some(0),
        batches: Some(0),
        ..ROW
    },
];

#[test]
fn batches_that_are_begun(rt: HostRuntime) -> Result<(), Fail> {
    check_rows(&rt, ROWS.as_slice())
}
