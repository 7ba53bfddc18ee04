//! Outputs that fail, and what was said before.
ghost use Rattle.std.specs.Prelude.{None};

use aio_disk::{Sink, WriteFault};
use aioscan_cmd::Line;
use aioscan_fixtures::rows::check_rows;
use aioscan_fixtures::runs::{check_outcome, run, run_shelf};
use fault_injection::MemSink;
use page_fixtures::files::{STEADY, one_file, shelf_of};
use row_fixtures::files::{pages_file, two_files};
use row_fixtures::listings::listing_of;
use std::process::Abort;
use std::sync::Wait;
use std::test::Fail;
use std::thread::Threads;

const ROWS: [&str; 5] = [
    "the third write takes nothing | f:200E out=3 | --stats f | 0/0-127 | \
     cannot write; totals 24 | 4",
    "nothing is written of a first page that is invalid | f:DE out=1 | f | | invalid page 0 0 | 1",
    "a warning of a text that was written whole | f:D64E out=2 | --zero-damaged f | \
     0/0=new 0/1-63 | zeroed page 0 0; cannot write | 4",
    "a damaged page of a text that was written whole | f:D64E out=2 | --show-damaged f | \
     0/0=D 0/1-63 | cannot write | 4",
    "a warning of the map | f:2E m:D out=1 | --zero-damaged --map m f | | \
     zeroed page 1 0; cannot write | 4",
];

#[test]
fn outputs_that_fail(rt: HostRuntime) -> Result<(), Fail> {
    check_rows(&rt, "--method sync --backends 1", &ROWS)
}

#[test]
fn the_first_write_takes_5_bytes(rt: HostRuntime) -> Result<(), Fail> {
    let files = one_file(rt.alloc(), "f", pages_file(rt.alloc(), "E")?)?;
    let done = run(&rt, files, STEADY, "f", (&[(1, 5)], &[]))?;
    check_outcome("5 bytes", &done, ("page ", "cannot write\n", 4))?;
    assert_eq!(rt; done.report.line, Line::Whole);
    Ok(())
}

/// A sink that finds no memory after so many writes.
#[derive(Drop)]
struct FullSink {
    bytes: Vec<u8>,
    writes: u64,
}

impl Sink for FullSink {
    ghost written = { λ s. None };

    ghost faults = { λ s. 0 };

    fn write(&mut self, bytes: &[u8]) -> Result<(), WriteFault> {
        let Some(left) = self.writes.checked_sub(1) else {
            return Err(WriteFault::Memory);
        };
        self.writes = left;
        match self.bytes.extend_from_slice(bytes) {
            Ok(()) => Ok(()),
            Err(_) => Err(WriteFault::Memory),
        }
    }
}

// The file `f`, the words, how many writes find memory, what is listed and what is said: a run whose
// next write finds none shows all else as it was.
type Row = (&'static str, &'static str, u64, &'static str, &'static str);

const WITHOUT_MEMORY: [Row; 6] = [
    ("200E", "--stats f", 2, "0/0-127", "out of memory\n"),
    (
        "D64E",
        "--zero-damaged f",
        1,
        "0/0=new 0/1-63",
        "zeroed page 0 0\nout of memory\n",
    ),
    (
        "2E",
        "--zero-damaged --map m f",
        0,
        "",
        "zeroed page 1 0\nout of memory\n",
    ),
    (
        "D64E",
        "--show-damaged f",
        1,
        "0/0=D 0/1-63",
        "out of memory\n",
    ),
    ("DE", "--check f", 0, "", "out of memory\n"),
    (
        "DE",
        "--check f",
        1,
        ": fault 0 0 header flags 0 lower 0 upper 0 special 0",
        "out of memory\n",
    ),
];

fn check_memory<R: Abort + AllocGlobal + Threads + Wait + Sync>(
    rt: &R,
    (pages, words, writes, listed, said): Row,
) -> Result<(), Fail> {
    let alloc = rt.alloc();
    let (file, map) = (pages_file(alloc, pages)?, pages_file(alloc, "D")?);
    let mut shelf = shelf_of(alloc, two_files(alloc, ("f", file), ("m", map))?, STEADY)?;
    let line = format!(in alloc; "--method sync --backends 1 {words}")?;
    let mut out = FullSink {
        bytes: Vec::new(alloc),
        writes,
    };
    let mut err = MemSink::make(alloc, Vec::new(alloc));
    let report = run_shelf(rt, &mut shelf, line.as_str(), &mut out, &mut err)?;
    let text = listing_of(alloc, listed)?;
    assert_eq!(rt; out.bytes.as_slice(), text.as_bytes(), "{line}");
    assert_eq!(rt; err.bytes(), said.as_bytes(), "{line}");
    assert_eq!(rt; (report.status, report.line), (5, Line::Whole), "{line}");
    Ok(())
}

#[test]
fn outputs_without_memory(rt: HostRuntime) -> Result<(), Fail> {
    for row in WITHOUT_MEMORY {
        check_memory(&rt, row)?;
    }
    Ok(())
}
