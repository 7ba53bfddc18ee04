//! Pages in the place of others.
use crate::made::{PLAIN, SUMMED, lines_of, page_with, put_tuple, tuple_of};
use heap_tuple::TupleHeader;
use page_check::{Kind, page_checksum};
use page_fixtures::pages::put_bytes;
use std::test::Fail;

fn at(block: u32, position: u16) -> TupleHeader {
    TupleHeader {
        block,
        position,
        ..tuple_of(1)
    }
}

fn updated(tuple: TupleHeader) -> TupleHeader {
    TupleHeader { xmax: 701, ..tuple }
}

fn frozen(tuple: TupleHeader) -> TupleHeader {
    TupleHeader {
        mask: 0x0b02,
        ..tuple
    }
}

#[test]
fn pages_in_the_place_of_others(rt: HostRuntime) -> Result<(), Fail> {
    let other = "fault 3 5 misplaced 70000\n";
    let rows = [
        ("its own block", at(5, 1), at(5, 2), ""),
        ("another", at(70000, 1), at(70000, 2), other),
        ("two others", at(70000, 1), at(70001, 2), ""),
        ("another and its own", at(70000, 1), at(5, 2), ""),
        ("another number", at(70000, 1), at(70000, 3), ""),
        ("another first number", at(70000, 2), at(70000, 2), ""),
        (
            "an updated one besides",
            at(70000, 1),
            updated(at(5, 2)),
            other,
        ),
        (
            "a frozen one besides",
            at(70000, 1),
            frozen(at(5, 2)),
            other,
        ),
        (
            "frozen ones alone",
            frozen(at(70000, 1)),
            frozen(at(70000, 2)),
            "",
        ),
        (
            "updated ones alone",
            updated(at(70000, 1)),
            updated(at(70000, 2)),
            "",
        ),
        ("the second alone", frozen(at(5, 1)), at(70000, 2), other),
    ];
    for (name, first, second, wanted) in rows {
        let mut page = page_with(8112, &[(8152, Kind::Normal, 40), (8112, Kind::Normal, 40)]);
        put_tuple(&mut page, 8152, &first);
        put_tuple(&mut page, 8112, &second);
        let lines = lines_of(&rt, &PLAIN, 5, &page)?;
        assert_eq!(rt; lines.as_str(), wanted, "{name}");
    }
    Ok(())
}

// A checksum covers the number of the block.
#[test]
fn a_page_of_its_block_by_its_checksum(rt: HostRuntime) -> Result<(), Fail> {
    let mut page = page_with(8152, &[(8152, Kind::Normal, 40)]);
    put_tuple(&mut page, 8152, &at(70000, 1));
    let of_5 = page_checksum(&page, 5);
    let of_6 = page_checksum(&page, 6);
    put_bytes(&mut page, 8, &of_5.to_le_bytes());
    let both = format!(in rt.alloc();
        "fault 3 6 checksum {of_5} expected {of_6}\nfault 3 6 misplaced 70000\n"
    )?;
    let rows = [
        ("its own", &SUMMED, 5, ""),
        ("not looked at", &PLAIN, 5, "fault 3 5 misplaced 70000\n"),
        ("of another block", &SUMMED, 6, both.as_str()),
    ];
    for (name, options, block, wanted) in rows {
        let lines = lines_of(&rt, options, block, &page)?;
        assert_eq!(rt; lines.as_str(), wanted, "{name}");
    }
    Ok(())
}
