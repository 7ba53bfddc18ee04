//! The most files that a line names, the longest map, and a job that is damaged throughout.
use aioscan_cmd::Line;
use aioscan_fixtures::rows::check_rows;
use aioscan_fixtures::runs::{check_outcome, run};
use page_fixtures::files::{STEADY, one_file};
use row_fixtures::files::{empty_file, pages_file};
use row_fixtures::listings::listing_of;
use std::test::Fail;

#[test]
fn as_many_files_as_a_line_names(rt: HostRuntime) -> Result<(), Fail> {
    let alloc = rt.alloc();
    let (mut files, mut text) = (Vec::new(alloc), String::new(alloc));
    let mut line = String::from_str(alloc, "--method sync --backends 1")?;
    for file in 0..1024u32 {
        let name = format!(in alloc; "f{file}")?;
        write!(line, " {name}")?;
        files.push((name, empty_file(alloc, 1)?))?;
        writeln!(
            text,
            "page {file} 0 lower 24 upper 8192 special 8192 items 0"
        )?;
    }
    let done = run(&rt, files, STEADY, line.as_str(), (&[], &[]))?;
    check_outcome("1024 files", &done, (text.as_str(), "", 0))
}

// Block 2097151 is the last that a relation can have. A page of a map has the bits of 32672 blocks.
const LONGEST_MAP: [&str; 2] = [
    "to the last block | f:8E m:65E | --to 2097151 f | 0/0-7 | no page 0 8 | 6",
    "the last block alone | f:8E m:65E | --from 2097151 --to 2097151 f | | no page 0 2097151 | 6",
];

#[test]
fn a_map_of_65_pages(rt: HostRuntime) -> Result<(), Fail> {
    check_rows(&rt, "--map m", &LONGEST_MAP)
}

// The second write of the error stream would fail.
#[test]
fn a_job_of_64_damaged_pages_has_one_write_of_warnings(rt: HostRuntime) -> Result<(), Fail> {
    let alloc = rt.alloc();
    let mut said = String::new(alloc);
    for block in 0..64u32 {
        writeln!(said, "zeroed page 0 {block}")?;
    }
    let files = one_file(alloc, "f", pages_file(alloc, "64D")?)?;
    let line = "--zero-damaged --method sync --backends 1 f";
    let done = run(&rt, files, STEADY, line, (&[], &[(2, 0)]))?;
    let text = listing_of(alloc, "0/0-63=new")?;
    check_outcome(line, &done, (text.as_str(), said.as_str(), 0))?;
    assert_eq!(&rt; done.report.line, Line::Whole);
    Ok(())
}
