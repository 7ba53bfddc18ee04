//! Faults of items that share bytes.
use crate::made::{Item, PLAIN, lines_of, page_with};
use page_check::Kind;
use std::test::Fail;

#[test]
fn overlaps(rt: HostRuntime) -> Result<(), Fail> {
    let rows: [(&str, &[Item], &str); 8] = [
        (
            "side by side",
            &[(8152, Kind::Normal, 40), (8112, Kind::Normal, 40)],
            "",
        ),
        (
            "in any order",
            &[(8112, Kind::Normal, 40), (8152, Kind::Normal, 40)],
            "",
        ),
        (
            "one place",
            &[(8152, Kind::Normal, 40), (8152, Kind::Normal, 40)],
            "fault 3 0 item 2 overlaps 1\n",
        ),
        (
            "the last byte of the later one",
            &[(8152, Kind::Normal, 40), (8112, Kind::Normal, 41)],
            "fault 3 0 item 2 overlaps 1\n",
        ),
        (
            "the last byte of the earlier one",
            &[(8112, Kind::Normal, 41), (8152, Kind::Normal, 40)],
            "fault 3 0 item 2 overlaps 1\n",
        ),
        (
            "two earlier ones, of which the one at the begin counts",
            &[
                (8152, Kind::Normal, 40),
                (8112, Kind::Normal, 40),
                (8128, Kind::Normal, 40),
            ],
            "fault 3 0 item 3 overlaps 2\n",
        ),
        (
            "not the neighbour",
            &[
                (8152, Kind::Normal, 40),
                (8112, Kind::Normal, 40),
                (8152, Kind::Normal, 40),
            ],
            "fault 3 0 item 3 overlaps 1\n",
        ),
        (
            "the bytes of an item with a fault are free",
            &[
                (8152, Kind::Normal, 32),
                (8128, Kind::Normal, 32),
                (8128, Kind::Normal, 24),
            ],
            "fault 3 0 item 2 overlaps 1\n",
        ),
    ];
    for (name, items, wanted) in rows {
        let page = page_with(8112, items);
        let lines = lines_of(&rt, &PLAIN, 0, &page)?;
        assert_eq!(rt; lines.as_str(), wanted, "{name}");
    }
    Ok(())
}
