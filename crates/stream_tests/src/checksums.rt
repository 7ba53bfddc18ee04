//! Streams that verify checksums and streams that do not, over one pool.

use crate::helpers::answers::Answer;
use crate::helpers::cases::{BY_HEADER, Blocks, CASE, Case, FULL, SETTINGS, VERIFIED};
use crate::helpers::rows::{ROW, Row, check_rows};
use page_check::{DamagedPages, PageRules};
use read_stream::Settings;
use std::test::Fail;

const VERIFYING: Settings = Settings {
    rules: VERIFIED,
    ..FULL
};

const ZEROING: PageRules = PageRules {
    damaged: DamagedPages::Zero,
    ..VERIFIED
};

const GIVING: PageRules = PageRules {
    damaged: DamagedPages::Give,
    ..VERIFIED
};

const NOT_VERIFYING: Settings = Settings {
    rules: BY_HEADER,
    ..FULL
};

/// Five blocks that an earlier stream has read. Block 2 has another checksum than it is to have.
const WRONG: Case<'static> = Case {
    blocks: 5,
    wrong_checksum: Some(2),
    settings: VERIFYING,
    first: Blocks::From(0, 5),
    list: Blocks::From(0, 5),
    ..CASE
};

/// The same without a wrong one.
const RIGHT: Case<'static> = Case {
    wrong_checksum: None,
    ..WRONG
};

// Each stream reads the five blocks by one read.
const TWICE: [(u32, u32); 2] = [(0, 5), (0, 5)];

const SHARED: [Row<'static>; 4] = [
    Row {
        name: "a page that was checked by its header alone is read again",
        case: RIGHT,
        pages: 5,
        reads: Some(&TWICE),
        taken: Some(1),
        ..ROW
    },
    Row {
        name: "and so is one that was verified, for who does not verify",
        case: Case {
            settings: NOT_VERIFYING,
            others: VERIFIED,
            ..RIGHT
        },
        pages: 5,
        reads: Some(&TWICE),
        taken: Some(1),
        ..ROW
    },
    Row {
        name: "pages that were verified come from the pool",
        case: Case {
            others: VERIFIED,
            ..RIGHT
        },
        pages: 5,
        reads: Some(&[(0, 5)]),
        taken: Some(0),
        ..ROW
    },
    Row {
        name: "the stream that verifies ends at a page that the other has given",
        case: WRONG,
        pages: 2,
        end: Answer::Invalid(2),
        reads: Some(&TWICE),
        ..ROW
    },
];

// The same, where one of the streams has met a wrong checksum.
const SHARED_BEHIND_DAMAGE: [Row<'static>; 3] = [
    Row {
        name: "the other gives a page at which the stream that verifies has ended",
        case: Case {
            settings: NOT_VERIFYING,
            others: VERIFIED,
            ..WRONG
        },
        pages: 5,
        reads: Some(&TWICE),
        ..ROW
    },
    Row {
        name: "a page that the other has given is zeroed",
        case: Case {
            settings: Settings {
                rules: ZEROING,
                ..FULL
            },
            ..WRONG
        },
        pages: 5,
        reads: Some(&TWICE),
        ..ROW
    },
    Row {
        name: "a page with a wrong checksum is not kept in the pool",
        case: Case {
            settings: Settings {
                rules: ZEROING,
                ..FULL
            },
            others: ZEROING,
            ..WRONG
        },
        pages: 5,
        reads: Some(&[(0, 5), (2, 1)]),
        taken: Some(1),
        ..ROW
    },
];

// The same with damaged pages given as they are.
const SHARED_WITH_DAMAGED: [Row<'static>; 4] = [
    Row {
        name: "a page that the other has given as valid is given as damaged",
        case: Case {
            settings: Settings {
                rules: GIVING,
                ..FULL
            },
            ..WRONG
        },
        pages: 5,
        reads: Some(&TWICE),
        ..ROW
    },
    Row {
        name: "a page that was given with a wrong checksum is not kept in the pool",
        case: Case {
            settings: Settings {
                rules: GIVING,
                ..FULL
            },
            others: GIVING,
            ..WRONG
        },
        pages: 5,
        reads: Some(&[(0, 5), (2, 1)]),
        taken: Some(1),
        ..ROW
    },
    Row {
        name: "the stream that refuses it ends there",
        case: Case {
            others: GIVING,
            ..WRONG
        },
        pages: 2,
        end: Answer::Invalid(2),
        reads: Some(&[(0, 5), (2, 1)]),
        ..ROW
    },
    Row {
        name: "pages are damaged by their header and by their checksum",
        case: Case {
            damaged: &[4],
            settings: Settings {
                rules: GIVING,
                ..FULL
            },
            first: Blocks::These(&[]),
            ..WRONG
        },
        pages: 5,
        reads: Some(&[(0, 5)]),
        taken: Some(1),
        ..ROW
    },
];

// A read of block 0 by another backend, which does not verify. A read that does is joined.
const UNDER_WAY: [Row<'static>; 2] = [
    Row {
        name: "a read that does not verify is not joined",
        case: Case {
            blocks: 3,
            settings: Settings {
                rules: VERIFIED,
                ..SETTINGS
            },
            other: Some(Blocks::These(&[])),
            list: Blocks::From(0, 3),
            ..CASE
        },
        pages: 3,
        reads: Some(&[(0, 1), (1, 2)]),
        taken: Some(2),
        ..ROW
    },
    Row {
        name: "a read that verifies is joined",
        case: Case {
            blocks: 3,
            settings: Settings {
                rules: VERIFIED,
                ..SETTINGS
            },
            others: VERIFIED,
            other: Some(Blocks::These(&[])),
            list: Blocks::From(0, 3),
            ..CASE
        },
        pages: 3,
        reads: Some(&[(0, 1), (1, 2)]),
        taken: Some(1),
        ..ROW
    },
];

#[test]
fn streams_that_verify_and_that_do_not(rt: HostRuntime) -> Result<(), Fail> {
    check_rows(&rt, SHARED.as_slice())
}

#[test]
fn streams_behind_a_wrong_checksum(rt: HostRuntime) -> Result<(), Fail> {
    check_rows(&rt, SHARED_BEHIND_DAMAGE.as_slice())
}

#[test]
fn streams_that_verify_and_give_damaged_pages(rt: HostRuntime) -> Result<(), Fail> {
    check_rows(&rt, SHARED_WITH_DAMAGED.as_slice())
}

#[test]
fn reads_that_verify_and_that_do_not(rt: HostRuntime) -> Result<(), Fail> {
    check_rows(&rt, UNDER_WAY.as_slice())
}
