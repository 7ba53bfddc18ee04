//! Reads that are executed in place, over disks in memory.
ghost use Rattle.std.specs.Prelude.{◌≡◌, ◌+◌, ◌<◌, ◌≤◌, ◌^◌, [], IfSome, length};
ghost use Rattle.aio_handle.specs.ContractViews.{IsActorOf, IsSameActor};

use aio_batch::Batch;
use aio_callback::{CallbackId, Counts, NoPlaces, ReadIo, laws};
use aio_disk::{Disk, ReadEntry, SteadyDisk, SteadyShelf};
use aio_handle::{Actor, Record, Table, Take};
use aio_result::{AioResult, Status};
use aio_word::Class;
use fault_injection::{MemDisk, MemShelf, Script};
use method_sync::{Runner, SyncMethod};
use page_check::World;
use std::alloc::{AllocError, Global};
use std::marker::Brand;
use std::process::Abort;
use std::sync::Wait;
use std::test::Fail;

const IDS: [CallbackId; 3] = [CallbackId::Count, CallbackId::Buffer, CallbackId::File];

/// What the owner of a read has once it took it in.
#[derive(Clone, Copy, Debug, PartialEq, Eq)]
struct Ended {
    class: Class,
    id: u8,
    status: Status,
    error: u32,
    result: i32,
    good: u32,
}

fn taken_in(io: &ReadIo) -> Ended {
    let AioResult {
        id,
        status,
        error,
        result,
    } = io.result();
    Ended {
        class: io.ended(),
        id,
        status,
        error,
        result,
        good: io.good(),
    }
}

/// Reads four blocks of relation 0 from `first` on through `SyncMethod`, takes the read in, and
/// gives the record back. None where a call refuses, or where the result is not there at once.
fn read_four<W: World, D: Disk, T: Wait>(
    rt: &T,
    table: &Table<ReadIo, W>,
    actor: &mut Actor<ReadIo, W>,
    batch: &mut Batch<ReadIo, W>,
    runner: &mut Runner<D, NoPlaces>,
    mut io: ReadIo,
    first: u32,
) -> Option<ReadIo>
    requires table { IsActorOf table.now actor.old }
    requires backend { actor.old.known.number < table.now.config.backends }
    requires empty { batch.old ≡ [] }
    requires told { (D.told runner.old.disk ≡ W.told)
        × (D.relations runner.old.disk ≡ W.relations) }
    requires some { 0 < W.relations }
    requires room { 4 ≤ length io.pages }
    requires first { first + 4 ≤ 2 ^ 32 }
    ensures same { IsSameActor actor.old actor.new }
    ensures told { (D.told runner.new.disk ≡ D.told runner.old.disk)
        × (D.relations runner.new.disk ≡ D.relations runner.old.disk) }
    ensures empty { IfSome result (λ _. batch.new ≡ []) }
    ensures room { IfSome result (λ r. length r.pages ≡ length io.pages) }
{
    laws::an_aim_names_the_read();
    io.aim(0, first, 4, false, &IDS).ok()?;
    let token = table.acquire(actor).ok()?;
    let token = table.define(actor, token, io);
    let token = table.stage(actor, token);
    batch.push(token).ok()?;
    let token = batch.submit_next(rt, table, actor, &mut SyncMethod, runner)?;
    let Take::Ready(mut local) = table.try_take(actor, token) else {
        return None;
    };
    let mut counts = Counts { ios: 0, blocks: 0 };
    local.record_mut().complete_local(&mut counts);
    Some(table.reclaim(actor, local))
}

/// What comes of reads from each of these blocks on, by one record, up to the first that is
/// refused.
fn read_each<W: World, D: Disk, T: Wait>(
    rt: &T,
    alloc: Global,
    table: &Table<ReadIo, W>,
    actor: &mut Actor<ReadIo, W>,
    runner: &mut Runner<D, NoPlaces>,
    firsts: &[u32],
) -> Result<Vec<Ended>, AllocError>
    requires table { IsActorOf table.now actor.old }
    requires backend { actor.old.known.number < table.now.config.backends }
    requires told { (D.told runner.old.disk ≡ W.told)
        × (D.relations runner.old.disk ≡ W.relations) }
    requires some { 0 < W.relations }
{
    let mut all = Vec::new(alloc);
    let mut batch = Batch::open(alloc)?;
    let mut io = ReadIo::make(alloc, 4)?;
    for first in firsts {
        let first = (*first).min(1000);
        match read_four(rt, table, actor, &mut batch, runner, io, first) {
            Some(read) => io = read,
            None => return Ok(all),
        }
        all.push(taken_in(&io))?;
    }
    Ok(all)
}

/// The same by one backend with one handle, and the disk afterwards.
fn read_all<W: World, D: Disk, T: Wait>(
    rt: &T,
    alloc: Global,
    disk: D,
    firsts: &[u32],
) -> Result<(Vec<Ended>, D), AllocError>
    requires handles { W.handles ≡ 1 }
    requires told { (D.told disk ≡ W.told) × (D.relations disk ≡ W.relations) }
    requires some { 0 < W.relations }
{
    let (table, mut actors) = Table::<ReadIo, W>::open(alloc, 1, 1, 0, 0)?;
    let mut runner = Runner {
        disk,
        places: NoPlaces,
    };
    let all = match actors.pop() {
        Some(mut actor) => read_each(rt, alloc, &table, &mut actor, &mut runner, firsts)?,
        None => Vec::new(alloc),
    };
    Ok((all, runner.disk))
}

/// The header of a page without items: lower 24, upper and special 8192, version 4.
const EMPTY_PAGE: [u8; 24] = [
    0, 0, 0, 0, 0, 0, 0, 0, 0, 0, 0, 0, 24, 0, 0, 32, 0, 32, 4, 32, 0, 0, 0, 0,
];

/// A file `f` of so many empty pages.
fn file_of(alloc: Global, blocks: u32) -> Result<Vec<(String, Vec<u8>)>, Fail> {
    let mut bytes = Vec::new(alloc);
    for _ in 0..blocks {
        bytes.extend_from_slice(&EMPTY_PAGE)?;
        bytes.extend_from_slice(&[0; 8168])?;
    }
    Ok(vec![in alloc; (String::from_str(alloc, "f")?, bytes)]?)
}

fn whole() -> Ended {
    Ended {
        class: Class::Whole,
        id: 0,
        status: Status::Good,
        error: 0,
        result: 4,
        good: 4,
    }
}

/// Reads over a steady disk, which then goes back to its shelf.
fn steady_reads<R: Abort + AllocGlobal + Wait>(
    rt: &R,
    shelf: &mut SteadyShelf,
    firsts: &[u32],
) -> Result<Vec<Ended>, Fail> {
    let alloc = rt.alloc();
    let names = vec![in alloc; String::from_str(alloc, "f")?]?;
    let disk = shelf.open(names.as_slice()).ok().ok_or("no disk")?;
    let (all, disk) = read_all::<Brand, SteadyDisk, R>(rt, alloc, disk, firsts)?;
    shelf.take_back(disk);
    Ok(all)
}

#[test]
fn reads_through_the_sync_method_are_logged(rt: HostRuntime) -> Result<(), Fail> {
    let alloc = rt.alloc();
    let files = file_of(alloc, 10)?;
    assert!(&rt; aio_disk::have_distinct_names(files.as_slice()));
    let mut shelf = MemShelf::steady(alloc, files, 10)?;
    let all = steady_reads(&rt, &mut shelf, &[0, 4, 8, 10])?;
    let rest = Ended {
        class: Class::Short,
        id: 1,
        status: Status::Partial,
        error: 0,
        result: 2,
        good: 2,
    };
    let past_the_end = Ended {
        class: Class::Short,
        id: 1,
        status: Status::Error,
        error: 2,
        result: 0,
        good: 0,
    };
    let wanted = [whole(), whole(), rest, past_the_end];
    assert_eq!(&rt; all.as_slice(), wanted.as_slice());
    let entry = |first, answered| ReadEntry {
        disk: 0,
        relation: 0,
        first,
        asked: 4,
        answered: Some(answered),
    };
    let log = [entry(0, 4), entry(4, 4), entry(8, 2), entry(10, 0)];
    assert_eq!(&rt; shelf.log(), log.as_slice());
    Ok(())
}

/// Reads over the first disk of a shelf whose script is this.
fn scripted_reads<R: Abort + AllocGlobal + Wait>(
    rt: &R,
    shelf: &mut MemShelf,
    firsts: &[u32],
) -> Result<Vec<Ended>, Fail> {
    let alloc = rt.alloc();
    let names = vec![in alloc; String::from_str(alloc, "f")?]?;
    let disk = shelf.open(names.as_slice()).ok().ok_or("no disk")?;
    let (all, _) = read_all::<Brand, MemDisk, R>(rt, alloc, disk, firsts)?;
    Ok(all)
}

#[test]
fn the_first_read_fails(rt: HostRuntime) -> Result<(), Fail> {
    let alloc = rt.alloc();
    let files = file_of(alloc, 4)?;
    let script = Script {
        fail_opens: Vec::new(alloc),
        fail_lengths: Vec::new(alloc),
        fail_reads: vec![in alloc; (0u32, 1u64)]?,
        shorts: Vec::new(alloc),
    };
    assert!(&rt; aio_disk::have_distinct_names(files.as_slice()));
    assert!(&rt; script.has_positive_shorts());
    let mut shelf = MemShelf::make(alloc, files, script, 0)?;
    let all = scripted_reads(&rt, &mut shelf, &[0, 0])?;
    let failed = Ended {
        class: Class::Failed,
        id: 1,
        status: Status::Error,
        error: 1,
        result: 0,
        good: 0,
    };
    assert_eq!(&rt; all.as_slice(), [failed, whole()].as_slice());
    Ok(())
}
