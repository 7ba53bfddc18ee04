//! Words that say what becomes of damaged pages, and what is written of each page.
use command_fixtures::words_of;
use command_line::read_command;
use page_check::DamagedPages;
use page_faults::{CheckOptions, Lsn};
use scan_settings::PageText;
use std::process::Abort;
use std::test::Fail;

const LAST: u32 = u32::MAX;

fn check_settings<R: Abort + AllocGlobal>(
    rt: &R,
    line: &str,
    damaged: DamagedPages,
    page_text: PageText,
) -> Result<(), Fail> {
    let words = words_of(rt.alloc(), line)?;
    let Ok(command) = read_command(rt.alloc(), words.as_slice()) else {
        return Err(Fail::from(line));
    };
    let settings = command.settings();
    assert_eq!(rt; settings.damaged, damaged, "{line}");
    assert_eq!(rt; settings.page_text, page_text, "{line}");
    Ok(())
}

#[test]
fn listings(rt: HostRuntime) -> Result<(), Fail> {
    let rows = [
        ("f", DamagedPages::Refuse, PageText::Items),
        ("--tuples f", DamagedPages::Refuse, PageText::Tuples),
        ("f --zero-damaged", DamagedPages::Zero, PageText::Items),
        ("f --show-damaged", DamagedPages::Give, PageText::Items),
        (
            "--make 3 --zero-damaged",
            DamagedPages::Zero,
            PageText::Items,
        ),
        (
            "--show-damaged --tuples f",
            DamagedPages::Give,
            PageText::Tuples,
        ),
    ];
    for (line, damaged, page_text) in rows {
        check_settings(&rt, line, damaged, page_text)?;
    }
    Ok(())
}

#[test]
fn checks(rt: HostRuntime) -> Result<(), Fail> {
    // Each with whether checksums are verified, the end of the log, and the next transaction.
    let rows = [
        ("--check f", false, None, None),
        ("f --checksums --check", true, None, None),
        ("--check --from 1 --stats --full f", false, None, None),
        ("--check --end-lsn 0/0 f", false, Some((0, 0)), None),
        ("--check --end-lsn 1a/0B f", false, Some((26, 11)), None),
        (
            "f --end-lsn=FFFFFFFF/ffffffff --check",
            false,
            Some((LAST, LAST)),
            None,
        ),
        ("--check --next-xid 0 f", false, None, Some(0)),
        ("--check --next-xid 0000000753 f", false, None, Some(753)),
        ("--check --next-xid=4294967295 f", false, None, Some(LAST)),
        (
            "--check --checksums --end-lsn 0/9 --next-xid 3 f",
            true,
            Some((0, 9)),
            Some(3),
        ),
    ];
    for (line, checksums, end, next_xid) in rows {
        let options = CheckOptions {
            checksums,
            end_lsn: end.map(|(high, low)| Lsn { high, low }),
            next_xid,
        };
        check_settings(&rt, line, DamagedPages::Give, PageText::Faults(options))?;
    }
    Ok(())
}
