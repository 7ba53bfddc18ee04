//! Faults of tuple headers.
use crate::made::{AT_1000, PLAIN, lines_of, page_with, put_tuple, tuple_of};
use heap_tuple::TupleHeader;
use page_check::Kind;
use page_faults::CheckOptions;
use std::test::Fail;

fn header(xmin: u32, xmax: u32, attrs: u16, mask: u16, hoff: u8) -> TupleHeader {
    TupleHeader {
        xmin,
        xmax,
        field3: 0,
        block: 0,
        position: 1,
        attrs,
        mask,
        hoff,
    }
}

#[test]
fn tuple_headers(rt: HostRuntime) -> Result<(), Fail> {
    let next_is_5 = CheckOptions {
        next_xid: Some(5),
        ..PLAIN
    };
    let rows: [(&str, &CheckOptions, TupleHeader, &str); 28] = [
        ("good", &AT_1000, tuple_of(1), ""),
        (
            "hoff 23",
            &PLAIN,
            header(700, 0, 2, 0, 23),
            "hoff 23 expected 24",
        ),
        (
            "hoff 32",
            &PLAIN,
            header(700, 0, 2, 0, 32),
            "hoff 32 expected 24",
        ),
        (
            "1 attribute with nulls",
            &PLAIN,
            header(700, 0, 1, 1, 24),
            "",
        ),
        (
            "8 attributes with nulls",
            &PLAIN,
            header(700, 0, 8, 1, 24),
            "",
        ),
        (
            "9 attributes with nulls",
            &PLAIN,
            header(700, 0, 9, 1, 24),
            "hoff 24 expected 32",
        ),
        (
            "9 attributes without nulls",
            &PLAIN,
            header(700, 0, 9, 0, 24),
            "",
        ),
        (
            "72 attributes with nulls",
            &PLAIN,
            header(700, 0, 72, 1, 32),
            "",
        ),
        (
            "73 attributes with nulls",
            &PLAIN,
            header(700, 0, 73, 1, 32),
            "hoff 32 expected 40",
        ),
        ("an identifier", &PLAIN, header(700, 0, 2, 8, 32), ""),
        (
            "an identifier and nulls",
            &PLAIN,
            header(700, 0, 40, 9, 32),
            "",
        ),
        (
            "the same, of one more",
            &PLAIN,
            header(700, 0, 41, 9, 32),
            "hoff 32 expected 40",
        ),
        (
            "2047 attributes",
            &PLAIN,
            header(700, 0, 2047, 1, 24),
            "hoff 24 expected 280",
        ),
        (
            "behind the end",
            &PLAIN,
            header(700, 0, 200, 1, 48),
            "hoff 48 expected 48",
        ),
        (
            "a MultiXact",
            &AT_1000,
            header(700, 2000, 2, 0x1000, 24),
            "",
        ),
        ("committed", &AT_1000, header(700, 999, 2, 0x0400, 24), ""),
        (
            "both",
            &AT_1000,
            header(700, 2000, 2, 0x1400, 24),
            "mask 5120",
        ),
        ("last xmin", &AT_1000, header(999, 0, 2, 0, 24), ""),
        (
            "next xmin",
            &AT_1000,
            header(1000, 0, 2, 0, 24),
            "xmin 1000",
        ),
        (
            "half the circle on",
            &AT_1000,
            header(2147484647, 0, 2, 0, 24),
            "xmin 2147484647",
        ),
        (
            "and one more",
            &AT_1000,
            header(2147484648, 0, 2, 0, 24),
            "",
        ),
        ("frozen", &AT_1000, header(1000, 0, 2, 0x0300, 24), ""),
        (
            "committed, not frozen",
            &AT_1000,
            header(1000, 0, 2, 0x0100, 24),
            "xmin 1000",
        ),
        (
            "invalid, not frozen",
            &AT_1000,
            header(1000, 0, 2, 0x0200, 24),
            "xmin 1000",
        ),
        (
            "next xmax",
            &AT_1000,
            header(700, 1000, 2, 0, 24),
            "xmax 1000",
        ),
        ("no limit", &PLAIN, header(1000, 1000, 2, 0, 24), ""),
        ("special ones", &next_is_5, header(2, 1, 2, 0, 24), ""),
        (
            "before the turn",
            &next_is_5,
            header(4_294_967_295, 4, 2, 0, 24),
            "",
        ),
    ];
    for (name, options, tuple, wanted) in rows {
        let mut page = page_with(8152, &[(8152, Kind::Normal, 40)]);
        put_tuple(&mut page, 8152, &tuple);
        let lines = lines_of(&rt, options, 0, &page)?;
        let wanted = if wanted.is_empty() {
            String::new(rt.alloc())
        } else {
            format!(in rt.alloc(); "fault 3 0 item 1 {wanted}\n")?
        };
        assert_eq!(rt; lines.as_str(), wanted.as_str(), "{name}");
    }
    Ok(())
}

#[test]
fn a_tuple_with_each_fault(rt: HostRuntime) -> Result<(), Fail> {
    let mut page = page_with(8152, &[(8152, Kind::Normal, 40)]);
    put_tuple(&mut page, 8152, &header(1001, 1002, 2, 0x0400, 25));
    let lines = lines_of(&rt, &AT_1000, 0, &page)?;
    let wanted = "fault 3 0 item 1 hoff 25 expected 24\n\
                  fault 3 0 item 1 xmin 1001\n\
                  fault 3 0 item 1 xmax 1002\n";
    assert_eq!(rt; lines.as_str(), wanted);
    Ok(())
}
