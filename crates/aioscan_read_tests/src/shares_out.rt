//! Runs that end while shares are out with other backends.
use aioscan_fixtures::rows::check_rows;
use std::test::Fail;

// A job is a file of two pages. With four backends the first two rounds of shares have 4 of them
// each, the next 8 and then 16. What is listed behind the end is not written.
const ROWS: [&str; 3] = [
    "a page that is invalid | f:2E g:D | f f f f f f f f f g f f f f f f f f f f | \
     0/0-1 0/0-1 0/0-1 0/0-1 0/0-1 0/0-1 0/0-1 0/0-1 0/0-1 | invalid page 1 0 | 1",
    "the ninth write fails | f:2E out=9 | f f f f f f f f f f f f f f f f f f f f | \
     0/0-1 0/0-1 0/0-1 0/0-1 0/0-1 0/0-1 0/0-1 0/0-1 | cannot write | 4",
    "all jobs end | f:2E | f f f f f f f f f f f | \
     0/0-1 0/0-1 0/0-1 0/0-1 0/0-1 0/0-1 0/0-1 0/0-1 0/0-1 0/0-1 0/0-1 | | 0",
];

const SETTINGS: [&str; 5] = [
    "--method sync --backends 2",
    "--method sync --backends 4",
    "--workers 2 --backends 3",
    "--workers 4 --backends 16",
    "--method ring --backends 4",
];

#[test]
fn runs_that_end_while_shares_are_out(rt: HostRuntime) -> Result<(), Fail> {
    for settings in SETTINGS {
        for _ in 0..40 {
            check_rows(&rt, settings, &ROWS)?;
        }
    }
    Ok(())
}
