//! Reads of a disk that tells its contents.
ghost use Rattle.std.specs.Prelude.{◌≡◌, ◌≢◌, ◌<◌, length, true, None, IfOk};
ghost use Rattle.aio_word.specs.declared.Class.TheVariants.{Unended};
ghost use Rattle.aio_callback.specs.ReadIoView.{ReadFits};
ghost use Rattle.aio_callback.specs.StreamOutcomes.{stream_ids, IsStreamOutcome, given_count};

use crate::marked_pages::{MarkedPage, check_pages, good_pages};
use crate::reads::{Ending, ending_of, result_of};
use aio_callback::CallbackId::{Buffer, Count, File, MarkBuffer, ZeroBuffer};
use aio_callback::{CallbackId, NoPlaces, Raw, ReadIo, laws};
use aio_disk::{Disk, SteadyDisk, SteadyShelf, have_distinct_names};
use aio_result::Status;
use aio_word::Class;
use page_check::{DamagedPages, PageMark, World};
use std::alloc::Global;
use std::marker::Brand;
use std::sync::Wait;
use std::test::Fail;

/// How many pages the owner of an ended record with a stream's callbacks gives.
fn given_pages<W: World>(io: &ReadIo, damaged: DamagedPages) -> u32
    requires fits { ReadFits W.told W.relations io.now }
    requires ended { io.now.label.ended ≢ Unended }
    requires ids { io.now.ids ≡ stream_ids damaged }
    ensures case { IsStreamOutcome damaged W.told io.now }
    ensures given { result ≡ given_count io.now.result }
{
    laws::stream_records_end_in_six_ways();
    io.good()
}

/// Reads the pages of an aimed record from a disk, completes it, and answers how many pages its
/// owner gives.
fn read_in<W: World, D: Disk, T: Wait>(
    rt: &T,
    disk: &mut D,
    io: &mut ReadIo,
    damaged: DamagedPages,
) -> u32
    requires told { (D.told disk.old ≡ W.told) × (D.relations disk.old ≡ W.relations) }
    requires relation { io.old.relation < W.relations }
    requires aimed { io.old.aimed ≡ true }
    requires unanswered { io.old.raw ≡ None }
    requires unended { io.old.label.ended ≡ Unended }
    requires ids { io.old.ids ≡ stream_ids damaged }
    ensures case { IsStreamOutcome damaged W.told io.new }
    ensures fits { ReadFits W.told W.relations io.new }
    ensures ended { io.new.label.ended ≢ Unended }
{
    let (relation, first) = (io.relation(), io.first());
    let answer = match disk.read(relation, first, io.pages_mut()) {
        Ok(count) => Raw::Read(count),
        Err(_) => Raw::Failed,
    };
    io.answer(answer);
    io.complete_shared::<W, NoPlaces, T>(rt, &mut NoPlaces);
    given_pages::<W>(io, damaged)
}

/// A disk with one file of three blocks of zeros, but for a byte of the second.
fn three_blocks(alloc: Global) -> Result<SteadyDisk, Fail>
    ensures { IfOk result (λ d. length d.told.relations ≡ 1) }
{
    let mut bytes = vec![in alloc; 0u8; 3 * 8192]?;
    bytes[8192 + 8000] = 1;
    let files = vec![in alloc; (String::from_str(alloc, "three")?, bytes)]?;
    let names = vec![in alloc; String::from_str(alloc, "three")?]?;
    if !have_distinct_names(files.as_slice()) {
        return Err(Fail::from("a name is given twice"));
    }
    let mut shelf = SteadyShelf::make(alloc, files, 8)?;
    Ok(shelf.open(names.as_slice()).ok().ok_or("no disk")?)
}

/// The callbacks of a stream.
pub(crate) fn callbacks(damaged: DamagedPages) -> [CallbackId; 3]
    ensures { result ≡ stream_ids damaged }
{
    let buffer = match damaged {
        DamagedPages::Refuse => Buffer,
        DamagedPages::Zero => ZeroBuffer,
        DamagedPages::Give => MarkBuffer,
    };
    [Count, buffer, File]
}

/// A read of four blocks of a disk that tells its contents, from this block on: how it ends, how
/// many pages are given, and the good pages.
fn read_of_disk<T: Wait>(
    rt: &T,
    alloc: Global,
    first: u8,
    checksums: bool,
    damaged: DamagedPages,
) -> Result<(Ending, u32, Vec<MarkedPage>), Fail> {
    let mut disk = three_blocks(alloc)?;
    let mut io = ReadIo::make(alloc, 5)?;
    io.aim(0, u32::from(first), 4, checksums, &callbacks(damaged))?;
    let given = read_in::<Brand, SteadyDisk, T>(rt, &mut disk, &mut io, damaged);
    Ok((ending_of(&io), given, good_pages(alloc, &io)?))
}

#[test]
fn reads_of_a_disk_fit_what_it_tells(rt: HostRuntime) -> Result<(), Fail> {
    use DamagedPages::{Give, Refuse, Zero};
    use PageMark::{Damaged, Zeroed};
    let invalid = |place: u8| result_of(2, Status::Error, u32::from(place), i32::from(place));
    let warning = |id, good| result_of(id, Status::Warning, 1, good);
    let part = result_of(1, Status::Partial, 0, 1);
    let past_end = result_of(1, Status::Error, 2, 0);
    let rows = [
        (0, Refuse, invalid(1), 1, None),
        (1, Refuse, invalid(0), 0, None),
        (2, Refuse, part, 1, None),
        (3, Refuse, past_end, 0, None),
        (0, Zero, warning(4, 3), 3, Some((1, Zeroed))),
        (1, Zero, warning(4, 2), 2, Some((0, Zeroed))),
        (2, Zero, part, 1, None),
        (3, Zero, past_end, 0, None),
        (0, Give, warning(5, 3), 3, Some((1, Damaged))),
        (1, Give, warning(5, 2), 2, Some((0, Damaged))),
        (2, Give, part, 1, None),
        (3, Give, past_end, 0, None),
    ];
    for (first, damaged, result, good, marked) in rows {
        for checksums in [false, true] {
            let name = format!(in rt.alloc();
                "from block {first}, {damaged:?}, checksums {checksums}"
            )?;
            let name = name.as_str();
            let (ending, given, pages) = read_of_disk(&rt, rt.alloc(), first, checksums, damaged)?;
            let wanted = Ending {
                class: Class::Short,
                result,
                good,
            };
            assert_eq!(rt; ending, wanted, "{name}");
            assert_eq!(rt; given, good, "{name}");
            check_pages(&rt, pages.as_slice(), good, marked, name);
        }
    }
    Ok(())
}
