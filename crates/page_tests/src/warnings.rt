//! Warnings of pages that are given as zeros.
use heap_scan::warning_text;
use std::test::Fail;

#[test]
fn warnings_name_the_page(rt: HostRuntime) -> Result<(), Fail> {
    let rows: [((u32, u32), &str); 4] = [
        ((0, 12), "before\nzeroed page 0 12\n"),
        ((7, 0), "before\nzeroed page 7 0\n"),
        ((9999, 10000), "before\nzeroed page 9999 10000\n"),
        (
            (u32::MAX, u32::MAX),
            "before\nzeroed page 4294967295 4294967295\n",
        ),
    ];
    for ((relation, block), text) in rows {
        let mut out = String::from_str(rt.alloc(), "before\n")?.into_bytes();
        warning_text(relation, block, &mut out)?;
        assert_eq!(rt; out.as_slice(), text.as_bytes(), "{text}");
    }
    Ok(())
}
