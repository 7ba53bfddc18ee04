//! What stands behind a listing, and how the run ends: by the sums of its pages.
ghost use Rattle.std.specs.Prelude.{◌≡◌, ◌≢◌, ◌≤◌, List, ℕ, IfOk, None, string_bytes};
ghost use Rattle.run_report.specs.Output.{WriteFaultsCounted};
ghost use Rattle.run_report.specs.Run.{IsClosed, IsConclusion, check_line, fault_outcome};
ghost use Rattle.aio_disk.specs.Counts.{CountRose};

use crate::Outcome;
use aio_disk::{Sink, WriteFault};
use command_line::Command;
use heap_scan::PageSums;
use run_report::RunEnd;
use scan_settings::PageText;
use std::alloc::{AllocError, Global};

/// Writes a closing line by one write, behind which the run ends so.
pub(crate) fn write_closing<O: Sink>(
    text: Result<String, AllocError>,
    end: Outcome,
    out: &mut O,
) -> Outcome
    requires { end ≢ Outcome.CannotWrite }
    ensures closed { (line : List ℕ) → IfOk text (λ t. string_bytes t ≡ line)
        → IsClosed line end (O.written out.old) (O.written out.new) result }
    ensures writes { WriteFaultsCounted (O.faults out.old) (O.faults out.new) result }
{
    let Ok(text) = text else {
        return Outcome::NoMemory;
    };
    match out.write(text.as_str().as_bytes()) {
        Ok(()) => end,
        Err(WriteFault::Device) => Outcome::CannotWrite,
        Err(WriteFault::Memory) => Outcome::NoMemory,
    }
}

// The line of the sums of a check.
fn check_summary(alloc: Global, sums: PageSums) -> Result<String, AllocError>
    ensures { IfOk result (λ text. string_bytes text ≡ check_line sums) }
{
    let PageSums {
        pages,
        zero,
        faults,
        ..
    } = sums;
    format!(in alloc; "pages {pages} new {zero} faults {faults}\n")
}

// How a run ends that has listed all, and tells faults.
fn outcome_of_faults(sums: PageSums) -> Outcome
    ensures { result ≡ fault_outcome None sums }
{
    if sums.faults > 0 {
        Outcome::FaultsFound
    } else {
        Outcome::Done
    }
}

/// Ends a run behind its listing, where that has come to its end: a check by the line of its sums.
/// The outcome says whether a fault was told.
pub(crate) fn conclude<O: Sink>(
    alloc: Global,
    command: &Command<'_>,
    end: RunEnd,
    out: &mut O,
) -> Outcome
    ensures concluded { IsConclusion command.now end.sums end.outcome (O.written out.old)
        (O.written out.new) result }
    ensures later { O.faults out.old ≤ O.faults out.new }
    ensures cannot_write { result ≡ Outcome.CannotWrite → end.outcome ≢ Outcome.CannotWrite
        → CountRose (O.faults out.old) (O.faults out.new) }
{
    match (end.outcome, command.map()) {
        (Outcome::Done, None) => {
            let outcome = outcome_of_faults(end.sums);
            match command.settings().page_text {
                PageText::Faults(_) => write_closing(check_summary(alloc, end.sums), outcome, out),
                PageText::Items | PageText::Tuples => outcome,
            }
        }
        (outcome, _) => outcome,
    }
}
