//! Each status, by files that are damaged or missing, and opens, lengths and reads that fail.
use aioscan_fixtures::rows::check_rows;
use std::test::Fail;

// The second file is damaged.
const ROWS: [&str; 14] = [
    "a second file that is damaged | f:EE g:D | f g | 0/0-1 | invalid page 1 0 | 1",
    "a read that fails | f:EEE g:D read=2 | --method sync --backends 1 f | 0/0 | unread page 0 1 | 3",
    "from above to | f:EEE g:D | --from 2 --to 1 f | | | 0",
    "a file twice | f:E g:D | f f | 0/0 0/0 | | 0",
    "to behind the end | f:EEEE g:D | --from 3 --to 4 f | 0/3 | no page 0 4 | 6",
    "from behind the end | f:EEEE g:D | --from 4 f | | | 0",
    "a first length that fails | f:EE g:D length=1 | f | | no length 0 | 3",
    "a second length that fails | f:EE g:D length=2 | f f g | | no length 1 | 3",
    "an open that fails | f:EE g:D open=1 | f | | cannot open | 3",
    "a second disk that cannot be opened | f:EE g:D open=2 | --method sync --backends 2 f | | \
     cannot open | 3",
    "a file that is not there | f:EE g:D | h | | cannot open | 3",
    "totals behind an invalid page | f: g:D | --method sync --backends 1 --stats g | | \
     invalid page 0 0; totals 1 | 1",
    "no totals behind a refusal | f:EE g:D | --stats f h | | cannot open | 3",
    "to for each file | f:EE g:D | --to 0 f g f | 0/0 | invalid page 1 0 | 1",
];

#[test]
fn every_status(rt: HostRuntime) -> Result<(), Fail> {
    check_rows(&rt, "", &ROWS)
}

// Lengths that are refused or fail come before the open of a further disk, which fails too.
const BEFORE_FURTHER_DISKS: [&str; 3] = [
    "too long | f:E f.1:E f.2:E f.3:E f.4:E f.5:E f.6:E f.7:E f.8:E f.9:E f.10:E f.11:E f.12:E \
     f.13:E f.14:E f.15:E f.16:E segment=1 open=2 | f | | relation 0 is too long | 7",
    "no length | f:E segment=1 open=2 length=1 | f | | no length 0 | 3",
    "neither | f:E segment=1 open=2 | f | | cannot open | 3",
];

#[test]
fn lengths_come_before_further_disks(rt: HostRuntime) -> Result<(), Fail> {
    check_rows(&rt, "--method sync --backends 2", &BEFORE_FURTHER_DISKS)
}
