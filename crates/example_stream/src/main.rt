//! A read stream by itself: one backend reads ten blocks of a relation in memory, and the disk's
//! log shows which neighbours were combined into one read. Then it counts the line pointers of the
//! same blocks, whose pages the pool has by now.
#![tactic(auto)]

ghost use Rattle.std.specs.Prelude.{◌≡◌, ◌<◌};
ghost use Rattle.read_stream.specs.Desks.{AreValidSettings};

mod answers;
mod items;
mod shelf;

use crate::answers::take_all;
use crate::items::count_items;
use crate::shelf::{make_shelf, open_disk};
use aio_callback::ReadIo;
use aio_disk::{Disk, SteadyDisk};
use aio_handle::Table;
use block_source::Range;
use buf_pool::Pool;
use method_sync::{Runner, SyncMethod};
use page_check::{DamagedPages, PageRules, World};
use read_stream::{Desk, ReadStream, Settings};
use std::io;
use std::marker::Brand;
use std::sync::Wait;

/// At most 4 blocks in one read, 4 reads under way, and 16 blocks ahead.
fn settings(full: bool) -> Settings
    ensures { AreValidSettings result }
{
    Settings {
        combine: 4,
        ios: 4,
        limit: 16,
        full,
        batch: false,
        segment: 131072,
        rules: PageRules {
            checksums: false,
            damaged: DamagedPages::Refuse,
        },
    }
}

/// Reads blocks 0 to 9 of relation 0 through a stream, counts their line pointers through another,
/// and gives the disk back.
fn read_ten<W: World, D: Disk, R: Wait + Print + AllocGlobal>(
    rt: &R,
    disk: D,
    full: bool,
) -> io::Result<D>
    requires handles { W.handles ≡ 4 }
    requires told { (D.told disk ≡ W.told) × (D.relations disk ≡ W.relations) }
    requires relation { 0 < W.relations }
{
    // One backend with four handles, and no runner: the sync method executes each I/O in place.
    let (table, mut actors) = Table::<ReadIo, W>::open(rt.alloc(), 1, 4, 0, 0)?;
    let pool = Pool::<W>::open(rt.alloc(), 16)?;
    let mut desk = Desk::open(rt.alloc(), &settings(full))?;
    let mut runner = Runner {
        disk,
        places: &pool,
    };
    if let Some(mut actor) = actors.pop()
        && actor.room() >= 10
    {
        let mut stream = ReadStream::open(&mut desk, &pool, &actor, 0, Range::new(0, 10));
        let taken = take_all(rt, &table, &mut actor, &mut runner, &mut stream);
        // A stream cannot be forgotten: until it is closed, I/Os of its own may be under way.
        let (_, desk) = stream.close(rt, &table, &mut actor, &mut SyncMethod, &mut runner);
        taken?;
        if actor.room() >= 10 {
            let (items, pages) = count_items(
                rt,
                &table,
                &pool,
                &mut actor,
                desk,
                &mut runner,
                0,
                10,
            );
            println!(rt; "{pages} pages have {items} line pointers")?;
        }
    }
    let Runner { disk, places: _ } = runner;
    Ok(disk)
}

/// Reads the file, and prints the log of its disk.
fn show<R: Wait + Print + AllocGlobal>(rt: &R, full: bool) -> io::Result<()> {
    let mut shelf = make_shelf(rt.alloc())?;
    let Some(disk) = open_disk(rt.alloc(), &mut shelf)? else {
        return println!(rt; "cannot open");
    };
    let disk = read_ten::<Brand, SteadyDisk, R>(rt, disk, full)?;
    shelf.take_back(disk);
    for read in shelf.log() {
        println!(rt; "read {} from block {}", read.asked, read.first)?;
    }
    Ok(())
}

fn main(rt: HostRuntime) -> io::Result<()> {
    // At first one block ahead, and twice as many each time a read had to be waited for.
    show(&rt, false)?;
    // As far as one read may go from the first block on.
    show(&rt, true)
}
