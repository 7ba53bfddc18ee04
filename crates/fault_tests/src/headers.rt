//! Faults of page headers.
use crate::made::{AT_1000, PLAIN, SUMMED, ending, lines_of, page_with};
use page_check::{Page, page_checksum};
use page_faults::{CheckOptions, lsn};
use page_fixtures::pages::{BOUNDS, EMPTY, FLAGGED, Parts, ZEROS, bounds, page_of, put_bytes};
use std::test::Fail;

// A page with these fields, and bytes at offsets besides.
fn page_of_bounds(fields: [u8; 8], parts: Parts<'_>) -> Page {
    let mut page = page_of(&[(BOUNDS, &fields)]);
    for (offset, bytes) in parts {
        put_bytes(&mut page, *offset, bytes);
    }
    page
}

#[test]
fn headers(rt: HostRuntime) -> Result<(), Fail> {
    let rows: [(&str, Page, &str); 11] = [
        ("zeros", page_of(ZEROS), ""),
        ("no items", page_of(EMPTY), ""),
        (
            "flag 8",
            page_of(FLAGGED),
            "fault 3 7 header flags 8 lower 24 upper 8192 special 8192\n",
        ),
        (
            "one byte behind a header of zeros",
            page_of(&[(8191, &[1])]),
            "fault 3 7 header flags 0 lower 0 upper 0 special 0\n",
        ),
        (
            "lower above upper, and a version",
            page_of_bounds(bounds(40, 32, 8192), &[(18, &[3, 32])]),
            "fault 3 7 header flags 0 lower 40 upper 32 special 8192\n",
        ),
        (
            "largest numbers",
            page_of(&[(10, &[255, 255, 255, 255, 255, 255, 255, 255])]),
            "fault 3 7 header flags 65535 lower 65535 upper 65535 special 65535\n",
        ),
        (
            "version 3",
            page_of_bounds(bounds(24, 8192, 8192), &[(18, &[3, 32])]),
            "fault 3 7 version 8195\n",
        ),
        (
            "lower 20",
            page_of_bounds(bounds(20, 8192, 8192), &[]),
            "fault 3 7 lower 20\n",
        ),
        (
            "lower 26",
            page_of_bounds(bounds(26, 8192, 8192), &[]),
            "fault 3 7 lower 26\n",
        ),
        (
            "lower 31 and one item",
            page_of_bounds(bounds(31, 8192, 8192), &[]),
            "fault 3 7 lower 31\n",
        ),
        (
            "lower 20 with a special space",
            page_of_bounds(bounds(20, 8176, 8176), &[]),
            "",
        ),
    ];
    for (name, page, wanted) in rows {
        let lines = lines_of(&rt, &PLAIN, 7, &page)?;
        assert_eq!(rt; lines.as_str(), wanted, "{name}");
    }
    Ok(())
}

#[test]
fn checksums(rt: HostRuntime) -> Result<(), Fail> {
    let mut page = page_of(EMPTY);
    // What `page_checksum` of a server's pageinspect gives for this page as block 2.
    let stored: u16 = 25954;
    put_bytes(&mut page, 8, &stored.to_le_bytes());
    let flagged = page_of(FLAGGED);
    let computed = page_checksum(&flagged, 2);
    let wanted = format!(in rt.alloc();
        "fault 3 2 header flags 8 lower 24 upper 8192 special 8192\nfault 3 2 checksum 0 expected {computed}\n"
    )?;
    let rows: [(&str, &Page, &CheckOptions, u32, &str); 6] = [
        ("its own", &page, &SUMMED, 2, ""),
        (
            "of another block",
            &page,
            &SUMMED,
            1,
            "fault 3 1 checksum 25954 expected 25951\n",
        ),
        ("not looked at", &page, &AT_1000, 1, ""),
        (
            "behind an insane header",
            &flagged,
            &SUMMED,
            2,
            wanted.as_str(),
        ),
        ("of zeros", &page_of(ZEROS), &SUMMED, 2, ""),
        (
            "none",
            &page_of(EMPTY),
            &SUMMED,
            2,
            "fault 3 2 checksum 0 expected 25954\n",
        ),
    ];
    for (name, page, options, block, wanted) in rows {
        let lines = lines_of(&rt, options, block, page)?;
        assert_eq!(rt; lines.as_str(), wanted, "{name}");
    }
    Ok(())
}

#[test]
fn places_in_the_log(rt: HostRuntime) -> Result<(), Fail> {
    let mut page = page_with(8192, &[]);
    put_bytes(&mut page, 0, &[0x0a, 0, 0, 0, 0x40, 0x37, 0x6b, 0xb1]);
    let place = lsn(&page);
    assert_eq!(rt; (place.high, place.low), (10, 0xb16b_3740));
    let behind = "fault 3 0 lsn A/B16B3740\n";
    let rows = [
        ("its own", 10, 0xb16b_3740, ""),
        ("one less", 10, 0xb16b_373f, behind),
        ("one more", 10, 0xb16b_3741, ""),
        ("high half less", 9, 0xffff_ffff, behind),
        ("high half more", 11, 0, ""),
        ("zero", 0, 0, behind),
    ];
    for (name, high, low, wanted) in rows {
        let lines = lines_of(&rt, &ending(high, low), 0, &page)?;
        assert_eq!(rt; lines.as_str(), wanted, "{name}");
    }
    put_bytes(&mut page, 0, &[0xff, 0xff, 0xff, 0xff, 0, 0, 0, 0]);
    let lines = lines_of(&rt, &ending(0, 0), 0, &page)?;
    assert_eq!(rt; lines.as_str(), "fault 3 0 lsn FFFFFFFF/0\n");
    Ok(())
}
