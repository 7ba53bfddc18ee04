//! A stream that pauses, and another backend that reads the same blocks meanwhile.

use crate::helpers::cases::{Blocks, CASE, Case, FULL};
use crate::helpers::rows::{ROW, Row, check_rows};
use read_stream::Settings;
use std::test::Fail;

const FEW_AHEAD: Settings = Settings {
    combine: 4,
    ios: 4,
    limit: 5,
    ..FULL
};

const BATCH: Settings = Settings {
    batch: true,
    ..FEW_AHEAD
};

/// Seven blocks in two runs, of which the second is not whole.
const TOGETHER: Case<'static> = Case {
    blocks: 7,
    settings: BATCH,
    between: Some(Blocks::From(0, 7)),
    list: Blocks::From(0, 7),
    ..CASE
};

const ONE_BY_ONE: Case<'static> = Case {
    settings: FEW_AHEAD,
    ..TOGETHER
};

fn paused(name: &'static str, pause: u32, case: Case<'static>) -> Row<'static> {
    Row {
        name,
        case: Case { pause, ..case },
        pages: 7,
        ..ROW
    }
}

/// Behind each answer all reads are submitted. Else the other backend would wait for ever for one
/// that the pool awaits.
#[test]
fn the_other_backend_reads_on(rt: HostRuntime) -> Result<(), Fail> {
    check_rows(
        &rt,
        &[
            paused("reads together, behind page 1", 1, TOGETHER),
            paused("reads together, behind page 2", 2, TOGETHER),
            paused("reads together, behind page 3", 3, TOGETHER),
            paused("reads together, behind page 4", 4, TOGETHER),
            paused("reads together, behind page 5", 5, TOGETHER),
            paused("reads together, behind page 6", 6, TOGETHER),
            paused("reads together, behind page 7", 7, TOGETHER),
            paused("reads one by one, behind page 3", 3, ONE_BY_ONE),
            paused("reads one by one, behind page 4", 4, ONE_BY_ONE),
        ],
    )
}
