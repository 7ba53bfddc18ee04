//! Shelves that do not tell their contents.
ghost use Rattle.std.specs.Prelude.{None, false};

use aio_disk::{DeviceFault, Disk, OpenFault, Shelf};
use aioscan_cmd::Report;
use aioscan_fixtures::runs::{TestOutcome, run_shelf};
use fault_injection::MemSink;
use page_check::Page;
use page_fixtures::pages::{EMPTY, page_of};
use row_fixtures::listings::empty_lines;
use std::alloc::Global;
use std::process::Abort;
use std::sync::Wait;
use std::test::Fail;
use std::thread::Threads;

/// The first block of a read, how many blocks were asked for, and how many came.
type Read = (u32, u32, u32);

// A disk whose relations all have this length, and whose reads see fewer pages, all empty. It
// keeps its reads, as far as there is room.
#[derive(Drop)]
struct LongDisk {
    count: u32,
    length: u32,
    seen: u32,
    page: Page,
    lengths: u64,
    reads: u64,
    log: Vec<Read>,
}

impl Disk for LongDisk {
    ghost relations = { λ d. d.count };

    ghost told = { λ d. None };

    ghost segment = { λ d. 131072 };

    ghost faults = { λ d. 0 };

    ghost length_faults = { λ d. 0 };

    ghost reads = { λ d. d.reads };

    fn segment(&self) -> u32 {
        131072
    }

    fn blocks(&mut self, _relation: u32) -> Result<u32, DeviceFault> {
        self.lengths = self.lengths.saturating_add(1);
        Ok(self.length)
    }

    fn read(&mut self, _relation: u32, first: u32, pages: &mut [Page]) -> Result<u32, DeviceFault> {
        self.reads = self.reads.saturating_add(1);
        let asked = pages.len() as u32;
        let answered = self.seen.saturating_sub(first).min(asked);
        for page in pages.iter_mut() {
            page.copy_from(&self.page);
        }
        let _full = self.log.push((first, asked, answered));
        Ok(answered)
    }
}

#[derive(Drop)]
struct LongShelf {
    alloc: Global,
    length: u32,
    seen: u32,
    // From this open on each fails so, where there is one.
    refuses: Option<(u64, OpenFault)>,
    open_faults: u64,
    reads: u64,
    opens: u64,
    taken_back: u64,
    lengths: u64,
    log: Vec<Read>,
}

impl Shelf for LongShelf {
    type Disk = LongDisk;

    ghost told = { λ s. None };

    ghost segment = { λ s. 131072 };

    ghost surely_opens = { λ s names. false };

    ghost counts = { λ s. record {
      open_faults = s.open_faults;
      length_faults = 0;
      faults = 0;
      reads = s.reads;
    } };

    fn open(&mut self, names: &[String]) -> Result<LongDisk, OpenFault> {
        self.opens = self.opens.saturating_add(1);
        let Ok(count) = u32::try_from(names.len()) else {
            self.open_faults = self.open_faults.saturating_add(1);
            return Err(OpenFault::Device);
        };
        match self.refuses {
            Some((open, OpenFault::Device)) if open <= self.opens => {
                self.open_faults = self.open_faults.saturating_add(1);
                return Err(OpenFault::Device);
            }
            Some((open, OpenFault::Memory)) if open <= self.opens => {
                return Err(OpenFault::Memory);
            }
            _ => {}
        }
        Ok(LongDisk {
            count,
            length: self.length,
            seen: self.seen,
            page: page_of(EMPTY),
            lengths: 0,
            reads: 0,
            log: Vec::new(self.alloc),
        })
    }

    fn take_back(&mut self, disk: LongDisk) {
        self.taken_back = self.taken_back.saturating_add(1);
        self.reads = self.reads.saturating_add(disk.reads);
        self.lengths = self.lengths.saturating_add(disk.lengths);
        let _full = self.log.extend_from_slice(disk.log.as_slice());
    }
}

// Relations of this length, of which reads see fewer pages.
fn long_shelf(alloc: Global, length: u32, seen: u32) -> LongShelf {
    LongShelf {
        alloc,
        length,
        seen,
        refuses: None,
        open_faults: 0,
        reads: 0,
        opens: 0,
        taken_back: 0,
        lengths: 0,
        log: Vec::new(alloc),
    }
}

// What a run over them has left.
#[derive(Drop)]
struct LongRun {
    report: Report,
    out: MemSink,
    err: MemSink,
    shelf: LongShelf,
}

// A run over relations of this shelf.
fn run_over<R: Abort + AllocGlobal + Threads + Wait + Sync>(
    rt: &R,
    mut shelf: LongShelf,
    line: &str,
) -> Result<LongRun, Fail> {
    let alloc = rt.alloc();
    let mut out = MemSink::make(alloc, Vec::new(alloc));
    let mut err = MemSink::make(alloc, Vec::new(alloc));
    let report = run_shelf(rt, &mut shelf, line, &mut out, &mut err)?;
    Ok(LongRun {
        report,
        out,
        err,
        shelf,
    })
}

// Compares what a run over relations of this length shows.
fn check_long_run<R: Abort>(rt: &R, length: u32, done: &LongRun, wanted: TestOutcome<'_>) {
    assert_eq!(rt; done.out.bytes(), wanted.0.as_bytes(), "{length} blocks");
    assert_eq!(rt; done.err.bytes(), wanted.1.as_bytes(), "{length} blocks");
    assert_eq!(rt; done.report.status, wanted.2, "{length} blocks");
}

#[test]
fn lengths_that_nothing_tells(rt: HostRuntime) -> Result<(), Fail> {
    let line = "--method sync --backends 1 f g";
    let rows = [
        (2097153, "relation 0 is too long\n", 7, (1, 1, 0)),
        (2097152, "no page 0 0\n", 6, (1, 2, 1)),
        (0, "", 0, (1, 2, 0)),
    ];
    for (length, said, status, calls) in rows {
        let done = run_over(&rt, long_shelf(rt.alloc(), length, 0), line)?;
        check_long_run(&rt, length, &done, ("", said, status));
        let made = (done.shelf.opens, done.shelf.lengths, done.shelf.reads);
        assert_eq!(rt; made, calls, "{length} blocks");
    }
    Ok(())
}

#[test]
fn fewer_pages_than_its_length(rt: HostRuntime) -> Result<(), Fail> {
    let rows: [(u32, u32, u32, &[Read]); 3] = [
        (6, 4, 4, &[(0, 1, 1), (1, 2, 2), (3, 3, 1), (4, 2, 0)]),
        (8, 7, 4, &[(0, 1, 1), (1, 2, 2), (3, 4, 4), (7, 1, 0)]),
        (8, 0, 1, &[(0, 1, 0)]),
    ];
    let line = "--method sync --backends 1 --stats f";
    for (length, seen, ios, log) in rows {
        let done = run_over(&rt, long_shelf(rt.alloc(), length, seen), line)?;
        let text = empty_lines(rt.alloc(), 0, seen)?;
        let mut said = format!(in rt.alloc(); "no page 0 {seen}\n")?;
        writeln!(said, "incarnations {ios} workers 0 backends {ios}")?;
        check_long_run(&rt, length, &done, (text.as_str(), said.as_str(), 6));
        assert_eq!(&rt;
            done.shelf.log.as_slice(),
            log,
            "{length} blocks, {seen} seen"
        );
    }
    Ok(())
}

// The length of each file, from which open on each fails and how, the line, the status, how often
// the run opened a disk, and how many disks it gave back.
const DISKS: [(u32, Option<(u64, OpenFault)>, &str, u8, (u64, u64)); 12] = [
    (1, None, "f", 0, (5, 5)),
    (1, None, "--method sync f", 0, (2, 2)),
    (1, None, "--method ring --backends 3 f", 0, (3, 3)),
    (1, None, "--workers 1 --backends 3 f", 0, (4, 4)),
    (
        1,
        None,
        "--method sync --workers 4 --backends 1 f",
        0,
        (1, 1),
    ),
    (0, None, "--workers 8 f g", 0, (10, 10)),
    (1, None, "--from 1 --to 1 f", 6, (5, 5)),
    (2097153, None, "f", 7, (1, 1)),
    (1, Some((1, OpenFault::Device)), "f", 3, (1, 0)),
    (1, Some((4, OpenFault::Device)), "f", 3, (4, 3)),
    (1, Some((1, OpenFault::Memory)), "f", 5, (1, 0)),
    (1, Some((4, OpenFault::Memory)), "f", 5, (4, 3)),
];

// A disk comes back even if nothing was read from it, and if the run is refused.
#[test]
fn a_disk_for_each_backend_and_each_worker_comes_back(rt: HostRuntime) -> Result<(), Fail> {
    for (length, refuses, line, status, disks) in DISKS {
        let shelf = LongShelf {
            refuses,
            ..long_shelf(rt.alloc(), length, length)
        };
        let done = run_over(&rt, shelf, line)?;
        assert_eq!(&rt;
            (
                done.report.status,
                (done.shelf.opens, done.shelf.taken_back)
            ),
            (status, disks),
            "{line}, {length} blocks, {refuses:?}"
        );
    }
    Ok(())
}
