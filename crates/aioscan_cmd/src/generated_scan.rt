//! Scans generated pages, over a shelf of their own, and writes the line of their sums.
ghost use Rattle.std.specs.Prelude.{◌≡◌, ℕ, IfOk, Some, string_bytes};
ghost use Rattle.aio_disk.specs.Counts.{ShelfCounts};
ghost use Rattle.command_line.specs.Command.{AsksForGeneratedPages};
ghost use Rattle.run_report.specs.Run.{summary_line};
ghost use Rattle.run_report.specs.Output.{WriteFaultsCounted, observed_state};
ghost use Rattle.run_report.specs.Run.{IsGeneratedRun};
ghost use Rattle.run_report.specs.ErrorLine.{AppendsWarnings, error_stream};
ghost use Rattle.run_report.specs.Totals.{AreRunNumbers};

use crate::conclusion::write_closing;
use crate::scan::list_files;
use crate::{Line, Outcome};
use aio_disk::{Sink, WriteFault};
use command_line::Command;
use generated_pages::generated_shelf;
use heap_scan::PageSums;
use run_report::RunEnd;
use std::alloc::{AllocError, Global};
use std::sync::Wait;
use std::thread::Threads;

/// A sink that keeps nothing: the texts of generated pages are not written.
#[derive(Drop)]
pub(crate) struct NullSink;

impl Sink for NullSink {
    ghost use Rattle.std.specs.Prelude.{None};

    ghost written = { λ sink. None };

    ghost faults = { λ sink. 0 };

    fn write(&mut self, _bytes: &[u8]) -> Result<(), WriteFault> {
        Ok(())
    }
}

// The line of these sums.
fn summary(alloc: Global, sums: PageSums) -> Result<String, AllocError>
    ensures { IfOk result (λ text. string_bytes text ≡ summary_line sums) }
{
    let PageSums {
        pages,
        zero,
        items,
        ..
    } = sums;
    format!(in alloc; "pages {pages} new {zero} items {items}\n")
}

/// Scans so many generated pages, and writes the line of their sums.
pub(crate) fn list_generated<O: Sink, E: Sink, R: Threads + Wait + Sync>(
    rt: &R,
    alloc: Global,
    command: &Command<'_>,
    pages: u32,
    out: &mut O,
    err: &mut E,
) -> RunEnd
    requires generated { AsksForGeneratedPages pages command.now }
    ensures ran { AppendsWarnings (λ warnings. (k : ℕ) → IsGeneratedRun command.now.settings.damaged
        pages
        (observed_state (O.written out.old) k) (observed_state (O.written out.new) k)
        result.outcome warnings) (error_stream Line.Whole (E.written err.old) (E.faults err.old))
        (error_stream result.line (E.written err.new) (E.faults err.new)) }
    ensures writes { WriteFaultsCounted (O.faults out.old) (O.faults out.new) result.outcome }
    ensures counted { (s : ShelfCounts) → AreRunNumbers (Some pages) (Some command.now) s s
        result.outcome result.numbers }
{
    let Ok(mut shelf) = generated_shelf(alloc, pages) else {
        return RunEnd::without_reads(Outcome::NoMemory);
    };
    let end = list_files(rt, alloc, command, &mut shelf, &mut NullSink, err);
    if end.outcome.is_done() {
        return RunEnd {
            outcome: write_closing(summary(alloc, end.sums), Outcome::Done, out),
            ..end
        };
    }
    end
}
