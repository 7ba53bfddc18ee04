//! How far a stream with a single handle looks ahead.

use crate::helpers::cases::{Blocks, CASE, Case};
use crate::helpers::rows::{ROW, Row, check_rows};
use std::test::Fail;

// Blocks 0, 2, 4 and 6, and then 20 to 39.
const LIST: [(u32, u32); 24] = [
    (0, 0),
    (2, 0),
    (4, 0),
    (6, 0),
    (20, 0),
    (21, 0),
    (22, 0),
    (23, 0),
    (24, 0),
    (25, 0),
    (26, 0),
    (27, 0),
    (28, 0),
    (29, 0),
    (30, 0),
    (31, 0),
    (32, 0),
    (33, 0),
    (34, 0),
    (35, 0),
    (36, 0),
    (37, 0),
    (38, 0),
    (39, 0),
];

const ROWS: [Row<'static>; 1] = [
    // Each wait doubles the distance, also that for a read which was taken in before, since the next
    // one wanted its handle: so it is 16 behind block 6.
    Row {
        name: "a read that was taken in for its handle draws the distance out",
        case: Case {
            blocks: 64,
            handles: 1,
            list: Blocks::These(&LIST),
            ..CASE
        },
        pages: 24,
        reads: Some(&[(0, 1), (2, 1), (4, 1), (6, 1), (20, 16), (36, 4)]),
        ..ROW
    },
];

#[test]
fn distances_with_one_handle(rt: HostRuntime) -> Result<(), Fail> {
    check_rows(&rt, ROWS.as_slice())
}
