//! How many pages the file of a relation has, and how many line pointers these have.
#![tactic(auto)]

ghost use Rattle.std.specs.Prelude.{◌≡◌, ◌<◌, IfOk};
ghost use Rattle.block_source.specs.BlocksLeft.{consecutive_blocks};
ghost use Rattle.stream_answer.specs.StreamAnswers.{stream_entries};
ghost use Rattle.page_reader.specs.PagesTaken.{PagesTaken};
ghost use Rattle.page_reader.specs.Settings.{default_rules};
ghost use Rattle.example_file.specs.Counts.{counts_of};

use aio_disk::Disk;
use anyhow::Context;
use block_source::Range;
use page_check::{Page, PageMark, count};
use page_reader::{Ended, PageConsumer, for_each_page, open_relation};
use std::alloc::AllocError;
use std::env;
use std::sync::Wait;

#[derive(Clone, Copy)]
struct Counts {
    pages: u64,
    items: u64,
}

impl PageConsumer for Counts {
    ghost use Rattle.std.specs.Prelude.{◌≡◌, ◌*◌, ◌≤◌, ◌^◌};
    ghost use Rattle.example_file.specs.Counts.{counts_of};

    ghost holds = { λ c pages. (c ≡ counts_of pages) × (c.items ≤ 65535 * c.pages) };

    ghost most = { λ _. 2 ^ 32 };

    fn take(&mut self, _block: u32, page: &Page, _mark: PageMark) {
        self.pages += 1;
        self.items += u64::from(count(page));
    }
}

/// Counts the first blocks of relation 0, up to one that cannot be given.
fn count_pages<D: Disk, R: Wait + AllocGlobal>(
    rt: &R,
    disk: D,
    blocks: u32,
) -> Result<(Counts, Ended), AllocError>
    requires { 0 < D.relations disk }
    ensures { IfOk result (λ answer. PagesTaken (λ pages. answer.0 ≡ counts_of pages) default_rules
        (D.told disk) (stream_entries 0 (consecutive_blocks 0 blocks)) answer.1) }
{
    let mut counts = Counts { pages: 0, items: 0 };
    let (ended, _) = for_each_page(rt, disk, 0, Range::new(0, blocks), &mut counts);
    Ok((counts, ended?))
}

fn main(rt: HostRuntime) -> anyhow::Result<()> {
    let name = env::args(&rt)?.nth(1).context("usage: example_file FILE")?;
    let mut disk = open_relation(&rt, name)?;
    let blocks = disk.blocks(0)?;
    let (counts, ended) = count_pages(&rt, disk, blocks)?;
    println!(rt;
        "{} pages have {} line pointers: {ended:?}",
        counts.pages, counts.items
    )?;
    Ok(())
}
