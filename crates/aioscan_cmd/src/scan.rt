//! Lists over opened disks what a command asks for.
ghost use Rattle.std.specs.Prelude.{◌≡◌, ◌≢◌, ◌<◌, ◌≤◌, ◌+◌, ◌*◌, ℕ, List, length, sum_by};
ghost use Rattle.std.specs.Prelude.{None, true, vec_len, vec_capacity};
ghost use Rattle.std.specs.List.{All};
ghost use Rattle.aio_disk.specs.Shelf.{AllThereIfTold, shelf_told};
ghost use Rattle.scan_settings.specs.Settings.{required_disks};
ghost use Rattle.command_line.specs.Command.{command_relations};
ghost use Rattle.request_list.specs.RemainingRequests.{IsResolved, resolved_request_parts};
ghost use Rattle.request_list.specs.RemainingRequests.{resolved_settings};
ghost use Rattle.aioscan_cmd.specs.Disks.{IsUnreadDisk};
ghost use Rattle.run_report.specs.Output.{WriteFaultsCounted};
ghost use Rattle.run_report.specs.Output.{observed_state};
ghost use Rattle.run_report.specs.Run.{IsListedRun};
ghost use Rattle.run_report.specs.Causes.{ScanHasOutcome, HasCauses, CallsInOrder};
ghost use Rattle.run_report.specs.Causes.{DisksWereOpened};
ghost use Rattle.run_report.specs.ErrorLine.{AppendsWarnings, error_stream};
ghost use Rattle.run_report.specs.Sums.{HasListed};
ghost use Rattle.run_report.specs.Totals.{AreRunNumbers, AreScanNumbers};

use crate::by_map::list_asked;
use crate::disks::{open_others, take_all_back};
use crate::lengths::take_lengths;
use crate::{Line, Outcome};
use aio_disk::{Disk, OpenFault, Shelf, Sink};
use command_line::Command;
use page_check::World;
use request_list::{Relations, ResolvedCommand};
use run_report::{Numbers, RunEnd};
use scan_rounds::Scan;
use std::alloc::Global;
use std::marker::Brand;
use std::sync::Wait;
use std::thread::Threads;

// Lists what is asked for, over a disk for each backend and each worker. The disks come back.
fn list_disks<W: World + Send + Sync, D: Disk, O: Sink, E: Sink, R: Threads + Wait + Sync>(
    rt: &R,
    alloc: Global,
    asked: ResolvedCommand<'_, '_>,
    disks: Vec<D>,
    out: &mut O,
    err: &mut E,
) -> (Vec<D>, RunEnd)
    requires asked { IsResolved asked }
    requires world { W.relations ≡ length asked.relations.now }
    requires disks { length disks.items ≡ required_disks (resolved_settings asked) }
    requires unread { All (IsUnreadDisk D.Disk W.told W.relations asked.segment) disks.items }
    requires handles { (resolved_settings asked).backends * (resolved_settings asked).handles
        ≡ W.handles }
    ensures listed { (given : ℕ → List ℕ)
        × AppendsWarnings (HasListed asked.entry.command.now W.told
        (resolved_request_parts asked.entry W.told given) (O.written out.old) (O.written out.new)
        result.1.outcome result.1.sums)
        (error_stream Line.Whole (E.written err.old) (E.faults err.old))
        (error_stream result.1.line (E.written err.new) (E.faults err.new))
        × AreScanNumbers asked.entry W.told given D.reads result.0.items result.1.numbers }
    ensures disks { length result.0.items ≡ length disks.items }
    ensures writes { WriteFaultsCounted (O.faults out.old) (O.faults out.new) result.1.outcome }
    ensures unread { (r b : ℕ) → result.1.outcome ≡ Outcome.Unread r b
        → 0 < sum_by D.faults result.0.items }
{
    let settings = asked.settings();
    let mut scan = match Scan::<W, D>::open(alloc, &settings, disks) {
        Ok(scan) => scan,
        Err(disks) => return (disks, RunEnd::without_reads(Outcome::NoMemory)),
    };
    let (outcome, line, sums) = list_asked(rt, alloc, &mut scan, asked, out, err);
    let (totals, disks) = scan.finish();
    let numbers = Numbers {
        incarnations: totals.incarnations(),
        by_workers: totals.by_runners(),
        by_backends: totals.by_backends(),
    };
    let end = RunEnd {
        outcome,
        numbers,
        line,
        sums,
    };
    (disks, end)
}

// Opens the disks that are not open yet, and lists what is asked for over all. They come back.
fn open_and_list<W: World + Send + Sync, S: Shelf, O: Sink, E: Sink, R: Threads + Wait + Sync>(
    rt: &R,
    alloc: Global,
    asked: ResolvedCommand<'_, '_>,
    mut disks: Vec<S::Disk>,
    shelf: &mut S,
    out: &mut O,
    err: &mut E,
) -> (Vec<S::Disk>, RunEnd)
    requires asked { IsResolved asked }
    requires told { shelf_told (S.told shelf.old) asked.relations.now ≡ W.told }
    requires world { W.relations ≡ length asked.relations.now }
    requires segment { S.segment shelf.old ≡ asked.segment }
    requires handles { (resolved_settings asked).backends * (resolved_settings asked).handles
        ≡ W.handles }
    requires unread { All (IsUnreadDisk S.Disk.Disk W.told W.relations asked.segment) disks.items }
    requires room { (vec_len disks ≤ 1) × (required_disks (resolved_settings asked)
        ≤ vec_capacity disks) }
    ensures scanned { (given : ℕ → List ℕ) × AppendsWarnings (ScanHasOutcome asked.entry given
        W.told
        (O.written out.old) (O.written out.new) (S.counts shelf.old) (S.counts shelf.new)
        (sum_by S.Disk.faults result.0.items) (sum_by S.Disk.reads result.0.items)
        result.1.outcome result.1.sums)
        (error_stream Line.Whole (E.written err.old) (E.faults err.old))
        (error_stream result.1.line (E.written err.new) (E.faults err.new))
        × AreScanNumbers asked.entry W.told given S.Disk.reads result.0.items result.1.numbers }
    ensures writes { WriteFaultsCounted (O.faults out.old) (O.faults out.new) result.1.outcome }
    ensures sure { S.surely_opens shelf.old asked.entry.relations.now ≡ true
        → result.1.outcome ≢ Outcome.CannotOpen }
    ensures told { S.told shelf.new ≡ S.told shelf.old }
{
    let settings = asked.settings();
    let names = asked.relations.names();
    match open_others(shelf, names, &mut disks, settings.disk_count()) {
        Ok(()) => list_disks::<W, S::Disk, O, E, R>(rt, alloc, asked, disks, out, err),
        Err(OpenFault::Device) => (disks, RunEnd::without_reads(Outcome::CannotOpen)),
        Err(OpenFault::Memory) => (disks, RunEnd::without_reads(Outcome::NoMemory)),
    }
}

/// Opens a disk for the relations, takes their lengths, and lists the blocks that the command asks
/// for. All disks go back to the shelf.
pub(crate) fn list_files<S: Shelf, O: Sink, E: Sink, R: Threads + Wait + Sync>(
    rt: &R,
    alloc: Global,
    command: &Command<'_>,
    shelf: &mut S,
    out: &mut O,
    err: &mut E,
) -> RunEnd
    ensures ran { AppendsWarnings (IsListedRun (shelf_told (S.told shelf.old) (command_relations
        command.now))
        (S.segment shelf.old) (length (command_relations command.now)) command.now
        (observed_state (O.written out.old) (S.counts shelf.old).reads)
        (observed_state (O.written out.new) (S.counts shelf.new).reads) result.outcome
        result.sums)
        (error_stream Line.Whole (E.written err.old) (E.faults err.old))
        (error_stream result.line (E.written err.new) (E.faults err.new)) }
    ensures causes { HasCauses (S.counts shelf.old) (S.counts shelf.new) (O.faults out.old)
        (O.faults out.new) result.outcome }
    ensures order { CallsInOrder (S.counts shelf.old) (S.counts shelf.new) result.outcome }
    ensures counted { AreRunNumbers None (Some command.now)
        (S.counts shelf.old) (S.counts shelf.new) result.outcome result.numbers }
    ensures sure { S.surely_opens shelf.old (command_relations command.now) ≡ true
        → result.outcome ≢ Outcome.CannotOpen }
    ensures told { S.told shelf.new ≡ S.told shelf.old }
    ensures opened { DisksWereOpened result.outcome
        → AllThereIfTold (S.told shelf.old) (command_relations command.now) }
    ensures words { result.outcome ≢ Outcome.Usage }
{
    let Ok(relations) = Relations::new(alloc, command) else {
        return RunEnd::without_reads(Outcome::NoMemory);
    };
    let mut disk = match shelf.open(relations.names()) {
        Ok(disk) => disk,
        Err(OpenFault::Device) => return RunEnd::without_reads(Outcome::CannotOpen),
        Err(OpenFault::Memory) => return RunEnd::without_reads(Outcome::NoMemory),
    };
    let lengths = match take_lengths(alloc, &mut disk, relations.count()) {
        Ok(lengths) => lengths,
        Err(outcome) => {
            shelf.take_back(disk);
            return RunEnd::without_reads(outcome);
        }
    };
    let asked = ResolvedCommand {
        command,
        relations: &relations,
        lengths: lengths.as_slice(),
        segment: disk.segment(),
    };
    let Ok(mut disks) = Vec::with_capacity(alloc, asked.settings().disk_count()) else {
        shelf.take_back(disk);
        return RunEnd::without_reads(Outcome::NoMemory);
    };
    disks.push_reserved(disk);
    let (disks, end) = open_and_list::<Brand, S, O, E, R>(rt, alloc, asked, disks, shelf, out, err);
    take_all_back(shelf, disks);
    end
}
