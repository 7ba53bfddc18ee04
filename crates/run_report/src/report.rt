//! What a run says of itself.
ghost use Rattle.std.specs.Prelude.{◌≡◌, ◌≢◌, true, false};
ghost use Rattle.run_report.specs.Outcomes.{has_totals as totals_known};
ghost use Rattle.run_report.specs.Totals.{end_without_reads};

use heap_scan::PageSums;

/// How a run ended. `R` is the number of a relation, its place among the distinct names, and `B`
/// a block of it.
#[derive(Clone, Copy, Debug, PartialEq, Eq)]
pub enum Outcome {
    /// All was listed: status 0.
    Done,
    /// All was listed, and of some page a fault was told: status 1.
    FaultsFound,
    /// Page (R, B) is not valid, and nothing is listed of it: status 1.
    Invalid(u32, u32),
    /// The words are no command: status 2.
    Usage,
    /// A file could not be opened: status 3.
    CannotOpen,
    /// The length of relation R could not be had: status 3.
    NoLength(u32),
    /// Page (R, B) could not be read: status 3.
    Unread(u32, u32),
    /// The output could not be written: status 4.
    CannotWrite,
    /// There was no memory: status 5.
    NoMemory,
    /// Relation R has no block B: status 6.
    Missing(u32, u32),
    /// Relation R has more blocks than 16 segments hold: status 7.
    TooLong(u32),
}

impl Outcome {
    /// Whether all was listed.
    pub fn is_done(self) -> bool
        ensures done { result ≡ true → self ≡ Outcome.Done }
        ensures other { result ≡ false → self ≢ Outcome.Done }
    {
        match self {
            Outcome::Done => true,
            _ => false,
        }
    }
}

/// How much of the warnings and of the lines of outcome and totals reached the error stream.
#[derive(Clone, Copy, Debug, PartialEq, Eq)]
pub enum Line {
    /// All of them; also where there is none, and then nothing was written.
    Whole,
    /// A begin of them: the error stream failed.
    Cut,
    /// A begin of them: there was no memory.
    NoMemory,
}

/// How many I/Os a run made.
#[derive(Clone, Copy)]
pub struct Numbers {
    /// How many were made through handles.
    pub incarnations: u128,
    /// How many of them were executed by I/O workers.
    pub by_workers: u128,
    /// How many of them were executed by backends.
    pub by_backends: u128,
}

/// How a run ended, and what it has counted.
#[derive(Clone, Copy)]
pub struct RunEnd {
    pub outcome: Outcome,
    pub numbers: Numbers,
    /// How much of the warnings reached the error stream.
    pub line: Line,
    /// The sums over the pages, where all were listed.
    pub sums: PageSums,
}

impl RunEnd {
    /// The end of a run that read no block and told nothing.
    pub fn without_reads(outcome: Outcome) -> RunEnd
        ensures { result ≡ end_without_reads outcome }
    {
        RunEnd {
            outcome,
            numbers: Numbers {
                incarnations: 0,
                by_workers: 0,
                by_backends: 0,
            },
            line: Line::Whole,
            sums: PageSums {
                pages: 0,
                zero: 0,
                items: 0,
                faults: 0,
            },
        }
    }
}

/// The end of a run, and whether the line of its totals follows that of its outcome.
#[derive(Clone, Copy)]
pub struct ReportedEnd {
    pub end: RunEnd,
    pub shows_totals: bool,
}

/// Whether a run was not refused, and found memory.
pub fn has_totals(outcome: Outcome) -> bool
    ensures { result ≡ totals_known outcome }
{
    match outcome {
        Outcome::Done
        | Outcome::FaultsFound
        | Outcome::Invalid(_, _)
        | Outcome::Unread(_, _)
        | Outcome::CannotWrite
        | Outcome::Missing(_, _) => true,
        Outcome::Usage
        | Outcome::CannotOpen
        | Outcome::NoLength(_)
        | Outcome::NoMemory
        | Outcome::TooLong(_) => false,
    }
}

/// The end of a run.
#[derive(Clone, Copy, Debug, PartialEq, Eq)]
pub struct Report {
    /// The exit status, 0 to 7.
    pub status: u8,
    /// What the status stands for, with its numbers.
    pub outcome: Outcome,
    /// How much of its warnings, of its line and of that of the totals reached the error stream.
    pub line: Line,
    /// How many I/Os were made through handles.
    pub incarnations: u128,
    /// How many of them were executed by I/O workers.
    pub by_workers: u128,
    /// How many of them were executed by backends.
    pub by_backends: u128,
}
