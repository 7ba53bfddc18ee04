//! Faults of line pointers.
use crate::made::{Item, PLAIN, lines_of, page_with};
use page_check::Kind;
use std::test::Fail;

#[test]
fn line_pointers(rt: HostRuntime) -> Result<(), Fail> {
    let good: Item = (8160, Kind::Normal, 32);
    let rows: [(&str, Item, &str); 22] = [
        ("unused", (0, Kind::Unused, 0), ""),
        ("unused with an offset", (1, Kind::Unused, 0), "unused 1 0"),
        ("unused with a length", (0, Kind::Unused, 1), "unused 0 1"),
        ("dead", (0, Kind::Dead, 0), ""),
        ("dead with its bytes", (8160, Kind::Dead, 32), ""),
        ("redirect to a normal one", (1, Kind::Redirect, 0), ""),
        (
            "redirect with a length",
            (1, Kind::Redirect, 1),
            "redirect 1 1",
        ),
        (
            "redirect to no number",
            (0, Kind::Redirect, 0),
            "redirect 0 0",
        ),
        ("redirect to itself", (2, Kind::Redirect, 0), "redirect 2 0"),
        (
            "redirect to an unused one",
            (3, Kind::Redirect, 0),
            "redirect 3 0",
        ),
        (
            "redirect behind the last",
            (4, Kind::Redirect, 0),
            "redirect 4 0",
        ),
        (
            "largest redirect",
            (32767, Kind::Redirect, 0),
            "redirect 32767 0",
        ),
        ("normal at upper", (8128, Kind::Normal, 32), ""),
        (
            "normal below upper",
            (8120, Kind::Normal, 32),
            "normal 8120 32",
        ),
        ("not aligned", (8132, Kind::Normal, 24), "normal 8132 24"),
        ("up to special", (8136, Kind::Normal, 24), ""),
        ("as short as can be", (8128, Kind::Normal, 24), ""),
        ("too short", (8128, Kind::Normal, 23), "normal 8128 23"),
        ("no bytes", (8128, Kind::Normal, 0), "normal 8128 0"),
        ("behind the end", (8168, Kind::Normal, 25), "normal 8168 25"),
        (
            "far behind the end",
            (32760, Kind::Normal, 32767),
            "normal 32760 32767",
        ),
        ("at the end", (8192, Kind::Normal, 24), "normal 8192 24"),
    ];
    for (name, item, wanted) in rows {
        let page = page_with(8128, &[good, item, (0, Kind::Unused, 0)]);
        let lines = lines_of(&rt, &PLAIN, 0, &page)?;
        let wanted = if wanted.is_empty() {
            String::new(rt.alloc())
        } else {
            format!(in rt.alloc(); "fault 3 0 item 2 {wanted}\n")?
        };
        assert_eq!(rt; lines.as_str(), wanted.as_str(), "{name}");
    }
    Ok(())
}
