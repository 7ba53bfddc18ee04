//! How many line pointers the pages have that a bitmap marks, and how many all pages have.
#![tactic(auto)]

ghost use Rattle.std.specs.Prelude.{◌≡◌, ◌<◌, ◌≤◌, ◌+◌, ◌*◌, ◌^◌, length, IfOk};
ghost use Rattle.block_source.specs.BlocksLeft.{consecutive_blocks};
ghost use Rattle.page_reader.specs.Readers.{IsReaderWorld};
ghost use Rattle.page_reader.specs.Settings.{default_rules};
ghost use Rattle.example_source.specs.Counts.{IsCountOf};
ghost use Rattle.example_source.specs.MarkedBlocks.{marked_blocks};

mod items;
mod marked;

use crate::items::Items;
use crate::marked::Marked;
use aio_disk::{Disk, FileDisk};
use anyhow::{Context, bail};
use block_source::{BlockSource, Range};
use page_check::World;
use page_reader::{Ended, PageReader, ReaderSettings, open_relation};
use std::alloc::AllocError;
use std::marker::Brand;
use std::sync::Wait;
use std::{env, fs};

/// The line pointers of some pages, and how these ended.
#[derive(Clone, Copy)]
struct Count {
    items: u64,
    ended: Ended,
}

/// Counts the pages of these blocks of relation 0.
fn count_blocks<W: World, D: Disk, S: BlockSource<()> + Drop, R: Wait>(
    rt: &R,
    reader: &mut PageReader<W, D>,
    source: S,
) -> Count
    requires relation { 0 < W.relations }
    requires few { length (S.left source) < 2 ^ 32 }
    requires room { length (S.left source) ≤ reader.old.room }
    ensures count { IsCountOf reader.old.rules W.told (S.left source) result }
    ensures rules { reader.new.rules ≡ reader.old.rules }
    ensures room { reader.old.room ≤ reader.new.room + length (S.left source) }
{
    let mut items = Items { count: 0 };
    let ended = reader.for_each_page(rt, 0, source, &mut items);
    Count {
        items: items.count,
        ended,
    }
}

/// Counts the marked pages and all pages, by one reader: what the first reading has left in the
/// pool, the second one does not read again.
fn count_twice<W: World, D: Disk, R: Wait + AllocGlobal>(
    rt: &R,
    disk: D,
    bits: Vec<u8>,
    blocks: u32,
) -> Result<(Count, Count), AllocError>
    requires world { IsReaderWorld D.Disk W.World disk }
    requires relation { 0 < W.relations }
    requires bits { length bits.items < 2 ^ 29 }
    ensures marked { IfOk result (λ counts. IsCountOf default_rules W.told
        (marked_blocks bits.items 0 (8 * length bits.items)) counts.0) }
    ensures all { IfOk result (λ counts. IsCountOf default_rules W.told
        (consecutive_blocks 0 blocks) counts.1) }
{
    match PageReader::<W, D>::open(rt.alloc(), disk, &ReaderSettings::new()) {
        Ok(mut reader) => {
            let marked = count_blocks(rt, &mut reader, Marked::new(bits));
            let all = count_blocks(rt, &mut reader, Range::new(0, blocks));
            let _ = reader.close();
            Ok((marked, all))
        }
        Err((error, _)) => Err(error),
    }
}

fn main(rt: HostRuntime) -> anyhow::Result<()> {
    let mut names = env::args(&rt)?.skip(1);
    let relation = names
        .next()
        .context("usage: example_source RELATION BITMAP")?;
    let bitmap = names
        .next()
        .context("usage: example_source RELATION BITMAP")?;
    let mut disk = open_relation(&rt, relation)?;
    let blocks = disk.blocks(0)?;
    let bits = fs::read(&rt, bitmap)?;
    if bits.len() >= 1 << 29 {
        bail!("the bitmap is too long");
    }
    let (marked, all) = count_twice::<Brand, FileDisk, HostRuntime>(&rt, disk, bits, blocks)?;
    println!(rt;
        "marked: {} line pointers, {:?}",
        marked.items, marked.ended
    )?;
    println!(rt; "all: {} line pointers, {:?}", all.items, all.ended)?;
    Ok(())
}
