//! The top call.
ghost use Rattle.std.specs.Prelude.{◌≡◌, ◌≢◌, ◌<◌, ◌≤◌, ◌⊎◌, ℕ, List, map, None, Some};
ghost use Rattle.std.specs.Prelude.{true, string_bytes};
ghost use Rattle.command_line.specs.Words.{command_of};
ghost use Rattle.run_report.specs.Outcomes.{status_of, is_refused};
ghost use Rattle.run_report.specs.Output.{observed_state};
ghost use Rattle.run_report.specs.Run.{IsCommandRun, HoldsForRun, CommandFilesExist, RunWrites};
ghost use Rattle.run_report.specs.Causes.{HasCauses, CallsInOrder, NamesFirstTooLong, IsComplete};
ghost use Rattle.run_report.specs.Causes.{DisksWereOpened};
ghost use Rattle.run_report.specs.ErrorLine.{IsErrorOutput, AppendsWarnings, error_stream};
ghost use Rattle.run_report.specs.ErrorLine.{shows_totals};
ghost use Rattle.run_report.specs.Totals.{AreRunNumbers, generated_page_count, report_numbers};

use crate::conclusion::conclude;
use crate::generated_scan::list_generated;
use crate::scan::list_files;
use crate::{Line, Outcome, Report};
use aio_disk::{Shelf, Sink};
use command_line::{Command, Refusal, read_command};
use run_report::{ReportedEnd, RunEnd, has_totals, write_end};
use std::alloc::Global;
use std::sync::Wait;
use std::thread::Threads;

// Lists what the command asks for: files, or generated pages.
fn run_command<S: Shelf, O: Sink, E: Sink, R: Threads + Wait + Sync>(
    rt: &R,
    alloc: Global,
    command: &Command<'_>,
    shelf: &mut S,
    out: &mut O,
    err: &mut E,
) -> RunEnd
    ensures ran { AppendsWarnings (IsCommandRun (S.told shelf.old) (S.segment shelf.old) (Some command.now)
        (observed_state (O.written out.old) (S.counts shelf.old).reads)
        (observed_state (O.written out.new) (S.counts shelf.new).reads) result.outcome)
        (error_stream Line.Whole (E.written err.old) (E.faults err.old))
        (error_stream result.line (E.written err.new) (E.faults err.new)) }
    ensures causes { HasCauses (S.counts shelf.old) (S.counts shelf.new) (O.faults out.old)
        (O.faults out.new) result.outcome }
    ensures order { CallsInOrder (S.counts shelf.old) (S.counts shelf.new) result.outcome }
    ensures counted { AreRunNumbers (generated_page_count (Some command.now)) (Some command.now)
        (S.counts shelf.old) (S.counts shelf.new) result.outcome result.numbers }
    ensures told { S.told shelf.new ≡ S.told shelf.old }
    ensures opened { DisksWereOpened result.outcome
        → CommandFilesExist (S.told shelf.old) (Some command.now) }
    ensures words { result.outcome ≢ Outcome.Usage }
{
    match command.generated() {
        None => {
            let end = list_files(rt, alloc, command, shelf, out, err);
            RunEnd {
                outcome: conclude(alloc, command, end, out),
                ..end
            }
        }
        Some(pages) => list_generated(rt, alloc, command, pages, out, err),
    }
}

// Reads the words, and lists what they ask for.
fn run<S: Shelf, O: Sink, E: Sink, R: Threads + Wait + Sync>(
    rt: &R,
    alloc: Global,
    words: &[String],
    shelf: &mut S,
    out: &mut O,
    err: &mut E,
) -> ReportedEnd
    ensures usage { result.end.outcome ≡ Outcome.Usage
        → command_of (map string_bytes words.now) ≡ None }
    ensures refused { command_of (map string_bytes words.now) ≡ None
        → (result.end.outcome ≡ Outcome.Usage) ⊎ (result.end.outcome ≡ Outcome.NoMemory) }
    ensures unread { command_of (map string_bytes words.now) ≡ None
        → (O.written out.new ≡ O.written out.old) × (S.counts shelf.new ≡ S.counts shelf.old) }
    ensures ran { AppendsWarnings (IsCommandRun (S.told shelf.old) (S.segment shelf.old) (command_of (map string_bytes
        words.now))
        (observed_state (O.written out.old) (S.counts shelf.old).reads)
        (observed_state (O.written out.new) (S.counts shelf.new).reads) result.end.outcome)
        (error_stream Line.Whole (E.written err.old) (E.faults err.old))
        (error_stream result.end.line (E.written err.new) (E.faults err.new)) }
    ensures causes { HasCauses (S.counts shelf.old) (S.counts shelf.new) (O.faults out.old)
        (O.faults out.new) result.end.outcome }
    ensures order { CallsInOrder (S.counts shelf.old) (S.counts shelf.new) result.end.outcome }
    ensures counted { AreRunNumbers (generated_page_count (command_of (map string_bytes words.now)))
        (command_of (map string_bytes words.now)) (S.counts shelf.old)
        (S.counts shelf.new) result.end.outcome result.end.numbers }
    ensures told { S.told shelf.new ≡ S.told shelf.old }
    ensures opened { DisksWereOpened result.end.outcome
        → CommandFilesExist (S.told shelf.old) (command_of (map string_bytes words.now)) }
    ensures shows { result.shows_totals
        ≡ shows_totals (command_of (map string_bytes words.now)) result.end.outcome }
{
    match read_command(alloc, words) {
        Ok(command) => {
            let end = run_command(rt, alloc, &command, shelf, out, err);
            ReportedEnd {
                end,
                shows_totals: has_totals(end.outcome) && command.stats(),
            }
        }
        Err(Refusal::Usage) => ReportedEnd {
            end: RunEnd::without_reads(Outcome::Usage),
            shows_totals: false,
        },
        Err(Refusal::NoMemory) => ReportedEnd {
            end: RunEnd::without_reads(Outcome::NoMemory),
            shows_totals: false,
        },
    }
}

/// Lists the pages of relation files, as the words ask, or sums up generated pages.
///
/// The words are options, and 1 to 1024 files between and behind them, or no file with `--make`;
/// the program's name is not among them. Relations are the distinct files, numbered from 0 in the
/// order of their first appearance, and with `--map` that of the map behind the one file. One disk
/// is opened for all of them, and their lengths are taken in order, each tested before the next is
/// taken. Then a disk is opened for each other backend, and for each I/O worker. Jobs of at most 64
/// blocks of one file go to the backends in shares: of one job at first, and of up to eight later.
/// Once a share has come back, the text of each of its jobs goes to `out` by one write, in their
/// order, up to the first that ended in a fault. Jobs behind that one may have been listed by then.
/// With `--tuples` the text of a page has the headers of its tuples and its update chains too. With
/// `--check` it is a line for each fault of the page, also of one that is not valid, and behind the
/// last page the line of their sums is written. With `--show-damaged` a page that is not valid is
/// listed by its header alone, and the listing goes on. With
/// `--map` the first backend reads the pages of the map before any job, their warnings go to `err`
/// by one write, and blocks that the map marks are not asked for; a fault of the map ends the run.
/// With `--zero-damaged` an invalid page is listed as a page of zeros, and once the text of its job
/// was written whole, the job's warnings go to `err` by one write: a line for each such page. At
/// the end a line on `err` names what ended the run, where that is not the end of the list. With
/// `--stats` the line of totals follows, unless the run was refused or there was no memory. What
/// cuts off a text on `err` ends writing there. All disks are taken back in every case. It may
/// wait.
pub fn aioscan<S: Shelf, O: Sink, E: Sink, R: Threads + Wait + Sync>(
    rt: &R,
    alloc: Global,
    words: &[String],
    shelf: &mut S,
    out: &mut O,
    err: &mut E,
) -> Report
    ensures status { result.status ≡ status_of result.outcome }

    // The words are refused where they are no command, and nothing is done then; there may also be
    // no memory to read them.
    ensures usage { result.outcome ≡ Outcome.Usage
        → command_of (map string_bytes words.now) ≡ None }
    ensures refused { command_of (map string_bytes words.now) ≡ None
        → (result.outcome ≡ Outcome.Usage) ⊎ (result.outcome ≡ Outcome.NoMemory) }
    ensures unread { command_of (map string_bytes words.now) ≡ None
        → (O.written out.new ≡ O.written out.old) × (S.counts shelf.new ≡ S.counts shelf.old) }

    // What became of the run: over any shelf, and as synchronous reads give it, where it tells.
    ensures ran { (warnings : List ℕ) × IsCommandRun (S.told shelf.old) (S.segment shelf.old)
        (command_of (map string_bytes words.now))
        (observed_state (O.written out.old) (S.counts shelf.old).reads)
        (observed_state (O.written out.new) (S.counts shelf.new).reads) result.outcome warnings }
    ensures writes { HoldsForRun (S.told shelf.old)
        (command_of (map string_bytes words.now)) (λ run.
        RunWrites run (O.written out.old) (O.written out.new) result.outcome) }
    ensures output_same { is_refused result.outcome ≡ true → O.written out.new ≡ O.written out.old }
    ensures error_output { IsErrorOutput (S.told shelf.old) (S.segment shelf.old)
        (command_of (map string_bytes words.now))
        (observed_state (O.written out.old) (S.counts shelf.old).reads)
        (observed_state (O.written out.new) (S.counts shelf.new).reads)
        result.outcome (report_numbers result)
        result.line (E.written err.old) (E.written err.new) (E.faults err.old) (E.faults err.new) }

    // Why each outcome comes, and in which order the outside is called.
    ensures causes { HasCauses (S.counts shelf.old) (S.counts shelf.new) (O.faults out.old)
        (O.faults out.new) result.outcome }
    ensures order { CallsInOrder (S.counts shelf.old) (S.counts shelf.new) result.outcome }
    ensures exact { HoldsForRun (S.told shelf.old) (command_of (map string_bytes words.now)) (λ run.
        NamesFirstTooLong run result.outcome) }
    ensures complete { HoldsForRun (S.told shelf.old)
        (command_of (map string_bytes words.now)) (λ run.
        IsComplete run (S.counts shelf.old) (S.counts shelf.new) (O.faults out.old)
        (O.faults out.new) result.outcome) }
    ensures files_exist { DisksWereOpened result.outcome
        → CommandFilesExist (S.told shelf.old) (command_of (map string_bytes words.now)) }

    ensures contents { S.told shelf.new ≡ S.told shelf.old }
    ensures later { E.faults err.old ≤ E.faults err.new }
    ensures totals { AreRunNumbers (generated_page_count (command_of (map string_bytes words.now)))
        (command_of (map string_bytes words.now)) (S.counts shelf.old)
        (S.counts shelf.new) result.outcome (report_numbers result) }
{
    let ended = run(rt, alloc, words, shelf, out, err);
    let line = write_end(alloc, ended, err);
    let RunEnd {
        outcome,
        numbers,
        ..
    } = ended.end;
    Report {
        status: status(outcome),
        outcome,
        line,
        incarnations: numbers.incarnations,
        by_workers: numbers.by_workers,
        by_backends: numbers.by_backends,
    }
}

fn status(outcome: Outcome) -> u8
    ensures { result ≡ status_of outcome }
{
    match outcome {
        Outcome::Done => 0,
        Outcome::FaultsFound | Outcome::Invalid(_, _) => 1,
        Outcome::Usage => 2,
        Outcome::CannotOpen | Outcome::NoLength(_) | Outcome::Unread(_, _) => 3,
        Outcome::CannotWrite => 4,
        Outcome::NoMemory => 5,
        Outcome::Missing(_, _) => 6,
        Outcome::TooLong(_) => 7,
    }
}
