//! Checksums of pages. What is to come is what `page_checksum` of a server's pageinspect gives for
//! these bytes (version 15).
use page_check::{Page, Verdict, check_as, laws, page_checksum};
use page_fixtures::checksums::{
    CHECKSUM, EMPTY_SUMS, NUMBERED_SUMS, page_as, plain_checksum, with_checksum,
};
use page_fixtures::pages::{
    BOUNDS, CONTENTS, EMPTY, FLAGGED, FLAGS, PRUNE_XID, ZEROS, bounds, page_of, put_bytes,
};
use std::process::Abort;
use std::test::Fail;

// A page without items, but for these bytes at an offset.
fn empty_page_with(offset: usize, bytes: &[u8]) -> Page {
    let mut page = page_of(EMPTY);
    put_bytes(&mut page, offset, bytes);
    page
}

// The plain rule of the fixtures is compared with the same numbers.
fn check_both<R: Abort>(rt: &R, name: &str, page: &Page, block: u32, wanted: u16) {
    let both = (
        page_checksum(page, block),
        plain_checksum(page.bytes(), block),
    );
    assert_eq!(rt; both, (wanted, wanted), "{name}, block {block}");
}

#[test]
fn checksums_of_sparse_pages(rt: HostRuntime) -> Result<(), Fail> {
    let none: &[u8] = &[];
    let rows: [(&str, usize, &[u8], u32, u16); 20] = [
        ("empty", 0, none, 0, 25952),
        ("empty", 0, none, 1, 25951),
        ("empty", 0, none, 2, 25954),
        ("empty", 0, none, 65534, 41126),
        ("empty", 0, none, 65535, 41125),
        ("empty", 0, none, 65536, 25953),
        ("empty", 0, none, 131071, 41126),
        ("empty", 0, none, 131072, 25950),
        ("empty", 0, none, 2097151, 41152),
        ("empty", 0, none, 4294967294, 39586),
        ("own checksum", CHECKSUM, &[0x34, 0x12], 0, 25952),
        ("own checksum", CHECKSUM, &[0x34, 0x12], 1, 25951),
        ("first byte", 0, &[1], 0, 41970),
        ("last byte of a row", 127, &[1], 0, 47791),
        ("first byte of the next row", 128, &[1], 0, 30078),
        ("last byte", 8191, &[1], 0, 15134),
        ("last byte", 8191, &[1], 1, 15133),
        ("last byte", 8191, &[1], 65536, 15133),
        ("last byte", 8191, &[1], 131072, 15132),
        ("last byte", 8191, &[1], 4294967294, 50404),
    ];
    for (name, offset, bytes, block, wanted) in rows {
        check_both(&rt, name, &empty_page_with(offset, bytes), block, wanted);
    }
    Ok(())
}

#[test]
fn checksums_of_the_fixtures(rt: HostRuntime) -> Result<(), Fail> {
    for (block, wanted) in EMPTY_SUMS.into_iter().enumerate() {
        check_both(&rt, "empty", &page_of(EMPTY), block as u32, wanted);
        let page = page_as(EMPTY, block as u32);
        assert_eq!(rt; page_check::header(&page).checksum, wanted, "block {block}");
    }
    for (block, wanted) in NUMBERED_SUMS.into_iter().enumerate() {
        let page = empty_page_with(PRUNE_XID, &(block as u32).to_le_bytes());
        check_both(&rt, "numbered", &page, block as u32, wanted);
    }
    let flagged = page_of(FLAGGED);
    check_both(&rt, "flagged", &flagged, 0, 46020);
    check_both(&rt, "flagged", &flagged, 5, 46023);
    let mut one_item = page_of(&[(BOUNDS, &bounds(28, 8152, 8192))]);
    put_bytes(&mut one_item, CONTENTS, &[0xd8, 0x9f, 0x50, 0]);
    check_both(&rt, "one item", &one_item, 0, 49850);
    check_both(&rt, "one item", &one_item, 1, 49849);
    Ok(())
}

// A page with flags 4 and one item. Behind the header byte i is (i * i + 3 * i) % 251.
fn page_of_squares() -> Page {
    let mut page = page_of(&[(FLAGS, &[4, 0]), (BOUNDS, &bounds(28, 8152, 8192))]);
    let mut place: u32 = 24;
    for byte in page.bytes_mut()[CONTENTS..].iter_mut() {
        let square = place.wrapping_mul(place);
        *byte = (square.wrapping_add(place.wrapping_mul(3)) % 251) as u8;
        place = place.wrapping_add(1);
    }
    page
}

#[test]
fn checksums_of_full_pages(rt: HostRuntime) -> Result<(), Fail> {
    let squares = page_of_squares();
    let mut ones = empty_page_with(CHECKSUM, &[0xff, 0xff, 7, 0]);
    ones.bytes_mut()[CONTENTS..].fill(0xff);
    let rows: [(&str, &Page, u32, u16); 10] = [
        ("squares", &squares, 0, 30022),
        ("squares", &squares, 1, 30023),
        ("squares", &squares, 131072, 30024),
        ("squares", &squares, 2097151, 39259),
        ("squares", &squares, 4294967294, 35514),
        ("ones", &ones, 0, 6798),
        ("ones", &ones, 1, 6799),
        ("ones", &ones, 65534, 48743),
        ("ones", &ones, 131072, 6796),
        ("ones", &ones, 4294967294, 58738),
    ];
    for (name, page, block, wanted) in rows {
        check_both(&rt, name, page, block, wanted);
    }
    Ok(())
}

#[test]
fn a_page_is_checked_as_its_block(rt: HostRuntime) -> Result<(), Fail> {
    use Verdict::{Bad, Sane, Zero};
    laws::a_page_with_its_checksum_is_verified();
    let of_block_0 = with_checksum(page_of(EMPTY), 25952);
    let flagged = with_checksum(page_of(FLAGGED), 46020);
    let empty = page_of(EMPTY);
    let zeros = page_of(ZEROS);
    let rows: [(&str, &Page, u32, bool, Verdict); 9] = [
        ("its block", &of_block_0, 0, true, Sane),
        ("the next block", &of_block_0, 1, true, Bad),
        ("by its header", &of_block_0, 1, false, Sane),
        (
            "block 0 of the next segment",
            &of_block_0,
            131072,
            true,
            Bad,
        ),
        ("no checksum", &empty, 0, true, Bad),
        ("no checksum, by its header", &empty, 0, false, Sane),
        ("zeros", &zeros, 7, true, Zero),
        ("an unknown flag, its checksum", &flagged, 0, true, Bad),
        ("an unknown flag", &flagged, 0, false, Bad),
    ];
    for (name, page, block, checksums, wanted) in rows {
        assert_eq!(rt; check_as(page, block, checksums), wanted, "{name}");
    }
    Ok(())
}
