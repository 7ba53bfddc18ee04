//! Lists what is asked for, by the map where there is one.
ghost use Rattle.std.specs.Prelude.{◌≡◌, ◌<◌, ◌≤◌, ◌+◌, ◌^◌, ℕ, List, length};
ghost use Rattle.scan_rounds.specs.Rounds.{results_taken_count};
ghost use Rattle.scan_rounds.specs.Scans.{IsScan, IsSameScan, scan_options};
ghost use Rattle.command_line.specs.Command.{options_of_settings};
ghost use Rattle.request_list.specs.RemainingRequests.{IsResolved, resolved_request_list};
ghost use Rattle.request_list.specs.RemainingRequests.{resolved_request_parts};
ghost use Rattle.request_list.specs.RemainingRequests.{resolved_settings};
ghost use Rattle.run_report.specs.ErrorLine.{AppendsWarnings, error_stream};
ghost use Rattle.run_report.specs.Output.{WriteFaultsCounted};
ghost use Rattle.run_report.specs.Sums.{HasListed};

use crate::list_jobs::list_jobs;
use crate::{Line, Outcome};
use aio_disk::{Disk, Sink};
use heap_scan::PageSums;
use lister::outcome_of;
use page_check::World;
use request_list::ResolvedCommand;
use run_report::write_warnings;
use scan_rounds::{MapFilter, Scan};
use std::alloc::Global;
use std::sync::Wait;
use std::thread::Threads;
use vis_map::VisMap;

/// The relation of a map.
const MAP: u32 = 1;

/// Lists what is asked for. Where there is a map it is read first, its warnings are told, and blocks
/// that it marks are left out. The answer is the outcome, how much of the warnings reached the error
/// stream, and the sums over the pages where there is no map.
pub(crate) fn list_asked<
    W: World + Send + Sync,
    D: Disk,
    O: Sink,
    E: Sink,
    R: Threads + Wait + Sync,
>(
    rt: &R,
    alloc: Global,
    scan: &mut Scan<W, D>,
    asked: ResolvedCommand<'_, '_>,
    out: &mut O,
    err: &mut E,
) -> (Outcome, Line, PageSums)
    requires scan { IsScan D.Disk W.World scan.old }
    requires room { 2 ^ 37 + 65 ≤ scan.old.room }
    requires asked { IsResolved asked }
    requires options { scan_options scan.old ≡ options_of_settings (resolved_settings asked) }
    requires world { W.relations ≡ length asked.relations.now }
    ensures scan { IsScan D.Disk W.World scan.new }
    ensures same { IsSameScan scan.old scan.new }
    ensures listed { (given : ℕ → List ℕ)
        × AppendsWarnings (HasListed asked.entry.command.now W.told
        (resolved_request_parts asked.entry W.told given) (O.written out.old) (O.written out.new)
        result.0 result.2)
        (error_stream Line.Whole (E.written err.old) (E.faults err.old))
        (error_stream result.1 (E.written err.new) (E.faults err.new))
        × (results_taken_count scan.new.backends.items
        ≤ results_taken_count scan.old.backends.items
        + length (resolved_request_list asked.entry W.told given)) }
    ensures writes { WriteFaultsCounted (O.faults out.old) (O.faults out.new) result.0 }
    ensures unread { (r b : ℕ) → result.0 ≡ Outcome.Unread r b → 0 < scan.new.unread }
{
    let option = match asked.command.map() {
        Some(option) => option,
        None => return list_jobs(rt, scan, asked, None, Line::Whole, out, err),
    };
    let Ok(mut map) = VisMap::open(alloc, asked.map_pages()) else {
        return (Outcome::NoMemory, Line::Whole, PageSums::default());
    };
    let mut warnings = Vec::new(alloc);
    let ending = scan.map(rt, MAP, &mut map, &mut warnings);
    let line = write_warnings(Line::Whole, warnings.as_slice(), err);
    match outcome_of(MAP, ending) {
        Outcome::Done => {
            let by_map = Some(MapFilter {
                map: &map,
                skip: option.skip,
            });
            list_jobs(rt, scan, asked, by_map, line, out, err)
        }
        outcome => (outcome, line, PageSums::default()),
    }
}
