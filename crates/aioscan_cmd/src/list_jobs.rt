//! The listing of what the FILE words ask for.
ghost use Rattle.std.specs.Prelude.{◌≡◌, ◌<◌, ◌≤◌, ◌+◌, ◌^◌, ℕ, length};
ghost use Rattle.scan_rounds.specs.Rounds.{results_taken_count};
ghost use Rattle.scan_rounds.specs.Scans.{IsScan, IsSameScan, scan_options};
ghost use Rattle.scan_jobs.specs.BlockFilter.{filter_of_skipping, unskipped_entries};
ghost use Rattle.command_line.specs.Command.{options_of_settings};
ghost use Rattle.request_list.specs.RemainingRequests.{IsResolved, resolved_parts};
ghost use Rattle.request_list.specs.RemainingRequests.{resolved_requests, resolved_settings};
ghost use Rattle.run_report.specs.ErrorLine.{AppendsWarnings, error_stream};
ghost use Rattle.lister.specs.ListerState.{unskipped_parts};
ghost use Rattle.heap_scan.specs.Sums.{no_sums};
ghost use Rattle.run_report.specs.Output.{WriteFaultsCounted, format_of_options};
ghost use Rattle.run_report.specs.Sums.{IsSummedOutput};

use crate::{Line, Outcome};
use aio_disk::{Disk, Sink};
use heap_scan::PageSums;
use lister::Lister;
use page_check::World;
use request_list::{Cutter, ResolvedCommand};
use scan_rounds::{MapFilter, Scan, end_borrow};
use std::sync::Wait;
use std::thread::Threads;

/// Lists what the FILE words ask for by jobs, without what the map leaves out.
pub(crate) fn list_jobs<
    W: World + Send + Sync,
    D: Disk,
    O: Sink,
    E: Sink,
    R: Threads + Wait + Sync,
>(
    rt: &R,
    scan: &mut Scan<W, D>,
    asked: ResolvedCommand<'_, '_>,
    by_map: Option<MapFilter<'_>>,
    line: Line,
    out: &mut O,
    err: &mut E,
) -> (Outcome, Line, PageSums)
    requires scan { IsScan D.Disk W.World scan.old }
    requires room { 2 ^ 37 ≤ scan.old.room }
    requires asked { IsResolved asked }
    requires options { scan_options scan.old ≡ options_of_settings (resolved_settings asked) }
    requires world { W.relations ≡ length asked.relations.now }
    ensures scan { IsScan D.Disk W.World scan.new }
    ensures same { IsSameScan scan.old scan.new }
    ensures lists { AppendsWarnings (IsSummedOutput
        (format_of_options (options_of_settings (resolved_settings asked.entry))) W.told
        (unskipped_parts (filter_of_skipping by_map.entry) (resolved_parts asked.entry))
        (O.written out.old) (O.written out.new) result.0 no_sums result.2)
        (error_stream line (E.written err.old) (E.faults err.old))
        (error_stream result.1 (E.written err.new) (E.faults err.new)) }
    ensures writes { WriteFaultsCounted (O.faults out.old) (O.faults out.new) result.0 }
    ensures results_bound { results_taken_count scan.new.backends.items
        ≤ results_taken_count scan.old.backends.items
        + length (unskipped_entries (filter_of_skipping by_map.entry) (resolved_requests
        asked.entry)) }
    ensures unread { (r b : ℕ) → result.0 ≡ Outcome.Unread r b → 0 < scan.new.unread }
{
    let blocks = Cutter::<W>::new(asked);
    let settings = asked.command.settings();
    let lister = Lister {
        blocks,
        by_map,
        out,
        err,
        line,
        rules: settings.page_rules(),
        page_text: settings.page_text,
        outcome: Outcome::Done,
        sums: PageSums::default(),
    };
    let lister = scan.run(rt, by_map, lister);
    let Lister {
        out,
        err,
        line,
        outcome,
        sums,
        ..
    } = lister;
    end_borrow(out);
    end_borrow(err);
    (outcome, line, sums)
}
