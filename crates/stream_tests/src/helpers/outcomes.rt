//! What comes of a case.
ghost use Rattle.std.specs.Prelude.{◌≡◌, ◌*◌, ◌<◌, ◌≤◌};
ghost use Rattle.read_stream.specs.Desks.{AreValidSettings};

use crate::helpers::answers::Answer;
use crate::helpers::beside::stream_beside;
use crate::helpers::cases::{Case, is_in_range};
use crate::helpers::other_backend::read_before;
use crate::helpers::streams::{Streamed, two_streams};
use aio_callback::ReadIo;
use aio_disk::{Disk, Shelf};
use aio_handle::Table;
use buf_pool::Pool;
use fault_injection::{MemDisk, MemShelf};
use method_sync::Runner;
use page_check::World;
use page_fixtures::files::{one_file, open_disk, shelf_of};
use page_fixtures::pages::numbered_pages;
use std::alloc::{AllocError, Global};
use std::marker::Brand;
use std::process::Abort;
use std::sync::Wait;
use std::test::Fail;

// What the stream of the case answers over a table and a pool of its own, and the disk afterwards.
fn read_all<W: World, D: Disk, T: Wait>(
    rt: &T,
    alloc: Global,
    disk: D,
    case: &Case<'_>,
    calls: u32,
) -> Result<(Option<Streamed>, D), AllocError>
    requires handles_in { (1 ≤ case.now.handles) × (case.now.handles ≤ 64) }
    requires frames { (16 ≤ case.now.frames) × (case.now.frames ≤ 16384) }
    requires settings { AreValidSettings case.now.settings }
    requires handles { W.handles ≡ 2 * case.now.handles }
    requires told { (D.told disk ≡ W.told) × (D.relations disk ≡ W.relations) }
    requires relation { case.now.relation < W.relations }
{
    let (table, mut actors) = Table::<ReadIo, W>::open(alloc, 2, case.handles, 0, 0)?;
    let pool = Pool::<W>::open(alloc, case.frames)?;
    let mut runner = Runner {
        disk,
        places: &pool,
    };
    let mut streamed = None;
    if let (Some(mut other), Some(mut actor)) = (actors.pop(), actors.pop()) {
        let ran = match &case.between {
            Some(blocks) => stream_beside(
                rt,
                alloc,
                case,
                calls,
                blocks,
                &pool,
                &table,
                &mut actor,
                &mut other,
                &mut runner,
            )?,
            None => {
                if let Some(blocks) = &case.other {
                    read_before(
                        rt,
                        alloc,
                        case,
                        blocks,
                        &pool,
                        &table,
                        &mut other,
                        &mut runner,
                    )?;
                }
                two_streams(
                    rt,
                    alloc,
                    case,
                    calls,
                    &pool,
                    &table,
                    &mut actor,
                    &mut runner,
                )?
            }
        };
        streamed = Some(ran);
    }
    let Runner { disk, places: _ } = runner;
    Ok((streamed, disk))
}

/// What came of a stream, all reads of its disk, and the first blocks of those that failed.
#[derive(Drop)]
pub(crate) struct Outcome {
    pub all: Vec<Answer>,
    pub taken: u64,
    pub heard: u64,
    pub batches: u64,
    pub reads: Vec<(u32, u32)>,
    pub failed: Vec<u32>,
}

// A shelf with the file of the case and another one.
fn shelf_over(alloc: Global, case: &Case<'_>) -> Result<MemShelf, Fail> {
    let mut bytes = Vec::new(alloc);
    for block in 0..case.blocks {
        bytes.extend_from_slice(case.page_of(block).bytes())?;
    }
    let mut files = one_file(alloc, "file", bytes)?;
    let other = numbered_pages(alloc, 1, Some(0))?;
    files.push((String::from_str(alloc, "other")?, other))?;
    shelf_of(alloc, files, case.faults)
}

/// Makes so many calls of the case's stream.
pub(crate) fn run<R: Abort + AllocGlobal + Wait>(
    rt: &R,
    case: &Case<'_>,
    calls: u32,
) -> Result<Outcome, Fail> {
    let alloc = rt.alloc();
    assert!(rt; is_in_range(case));
    let mut shelf = shelf_over(alloc, case)?;
    let names = if case.relation == 0 {
        ["file", "other"]
    } else {
        ["other", "file"]
    };
    let disk = open_disk(alloc, &mut shelf, names.as_slice())?;
    let (streamed, disk) = read_all::<Brand, MemDisk, R>(rt, alloc, disk, case, calls)?;
    shelf.take_back(disk);
    let Streamed {
        all,
        taken,
        heard,
        batches,
    } = streamed.ok_or("no backends")?;
    let mut reads = Vec::new(alloc);
    let mut failed = Vec::new(alloc);
    for entry in shelf.log() {
        assert_eq!(rt; entry.relation, case.relation, "the relation of a read");
        reads.push((entry.first, entry.asked))?;
        if entry.answered.is_none() {
            failed.push(entry.first)?;
        }
    }
    Ok(Outcome {
        all,
        taken,
        heard,
        batches,
        reads,
        failed,
    })
}
