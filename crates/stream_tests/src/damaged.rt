//! Streams over damaged pages: they end there, give zeros, or give the pages as they are.

use crate::helpers::answers::Answer;
use crate::helpers::cases::{BY_HEADER, Blocks, CASE, Case, FULL, GIVING, ZEROING};
use crate::helpers::rows::{ROW, Row, check_rows};
use page_check::{DamagedPages, PageRules};
use page_fixtures::files::{Faults, STEADY};
use read_stream::Settings;
use std::test::Fail;

const ENDING: [Row<'static>; 4] = [
    Row {
        name: "full look-ahead stops at a bad page",
        case: Case {
            blocks: 14,
            damaged: &[12],
            settings: FULL,
            list: Blocks::From(10, 4),
            ..CASE
        },
        pages: 2,
        end: Answer::Invalid(12),
        reads: Some(&[(10, 4)]),
        ..ROW
    },
    Row {
        name: "a damaged page ends the stream",
        case: Case {
            blocks: 5,
            damaged: &[2],
            settings: FULL,
            list: Blocks::From(0, 5),
            ..CASE
        },
        pages: 2,
        end: Answer::Invalid(2),
        reads: Some(&[(0, 5)]),
        ..ROW
    },
    Row {
        name: "the first of several ends it",
        case: Case {
            blocks: 5,
            damaged: &[1, 3],
            settings: FULL,
            list: Blocks::From(0, 5),
            ..CASE
        },
        pages: 1,
        end: Answer::Invalid(1),
        ..ROW
    },
    Row {
        name: "all pages are damaged",
        case: Case {
            blocks: 3,
            damaged: &[0, 1, 2],
            settings: FULL,
            list: Blocks::From(0, 3),
            ..CASE
        },
        end: Answer::Invalid(0),
        ..ROW
    },
];

// Streams that go on behind damaged pages.
fn rows_with(rules: PageRules) -> [Row<'static>; 7] {
    let five = Case {
        blocks: 5,
        settings: Settings { rules, ..FULL },
        list: Blocks::From(0, 5),
        ..CASE
    };
    let short = Faults {
        shorts: &[3],
        ..STEADY
    };
    let row = |name, case| Row {
        name,
        case,
        pages: 5,
        reads: Some(&[(0, 5)]),
        taken: Some(1),
        ..ROW
    };
    let of_short = |name, damaged| Row {
        reads: Some(&[(0, 5), (3, 2)]),
        taken: Some(2),
        ..row(
            name,
            Case {
                damaged,
                faults: short,
                ..five
            },
        )
    };
    let twice = Case {
        damaged: &[2],
        list: Blocks::These(&[(2, 1), (2, 2)]),
        ..five
    };
    let joined = Case {
        damaged: &[0],
        other: Some(Blocks::These(&[])),
        ..five
    };
    [
        row(
            "a damaged page between others",
            Case {
                damaged: &[2],
                ..five
            },
        ),
        row(
            "the first and the last page are damaged",
            Case {
                damaged: &[0, 4],
                ..five
            },
        ),
        row(
            "all pages are damaged",
            Case {
                damaged: &[0, 1, 2, 3, 4],
                ..five
            },
        ),
        of_short("a short read with a damaged page is taken up", &[1]),
        of_short("a short read ends before a damaged page", &[3]),
        Row {
            pages: 2,
            reads: Some(&[(2, 1), (2, 1)]),
            taken: Some(2),
            ..row(
                "a damaged block that is asked for twice is read twice",
                twice,
            )
        },
        Row {
            reads: Some(&[(1, 4), (0, 1), (0, 1)]),
            taken: Some(2),
            ..row("a block that another backend refuses is read again", joined)
        },
    ]
}

// A stream over five blocks of which block 2 is damaged, behind another over one pool. The pool has
// the valid pages that the other was given, and block 2 is read again.
fn second_stream(others: PageRules, rules: PageRules) -> Row<'static> {
    let (pages, end) = match rules.damaged {
        DamagedPages::Refuse => (2, Answer::Invalid(2)),
        _ => (5, Answer::End),
    };
    let reads: &[(u32, u32)] = match others.damaged {
        DamagedPages::Refuse => &[(0, 5), (2, 3)],
        _ => &[(0, 5), (2, 1)],
    };
    Row {
        name: "the second stream over a pool",
        case: Case {
            blocks: 5,
            damaged: &[2],
            settings: Settings { rules, ..FULL },
            others,
            first: Blocks::From(0, 5),
            list: Blocks::From(0, 5),
            ..CASE
        },
        pages,
        end,
        reads: Some(reads),
        ..ROW
    }
}

#[test]
fn a_damaged_page_ends_a_stream(rt: HostRuntime) -> Result<(), Fail> {
    check_rows(&rt, ENDING.as_slice())
}

#[test]
fn streams_go_on_behind_damaged_pages(rt: HostRuntime) -> Result<(), Fail> {
    for rules in [ZEROING, GIVING] {
        check_rows(&rt, rows_with(rules).as_slice())?;
    }
    Ok(())
}

#[test]
fn a_pool_never_has_a_damaged_page(rt: HostRuntime) -> Result<(), Fail> {
    for others in [BY_HEADER, ZEROING, GIVING] {
        for rules in [BY_HEADER, ZEROING, GIVING] {
            check_rows(&rt, [second_stream(others, rules)].as_slice())?;
        }
    }
    Ok(())
}
