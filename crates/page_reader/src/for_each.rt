//! The pages of a relation in one call.
ghost use Rattle.std.specs.Prelude.{◌≡◌, ◌<◌, ◌≤◌, ◌^◌, [], length, IfOk, OnErr};
ghost use Rattle.stream_answer.specs.StreamAnswers.{stream_entries};
ghost use Rattle.page_reader.specs.PagesTaken.{IfStopped, PagesTaken, UnreadHasCause};
ghost use Rattle.page_reader.specs.Readers.{IsReaderWorld, TellsWorld};
ghost use Rattle.page_reader.specs.Settings.{IsReadable, default_rules};

use crate::consumer::{Ended, PageConsumer};
use crate::reader::PageReader;
use crate::settings::ReaderSettings;
use aio_disk::Disk;
use block_source::BlockSource;
use page_check::World;
use std::alloc::AllocError;
use std::marker::Brand;
use std::sync::Wait;

// Opens a reader for one reading, and closes it.
fn read_in<W: World, D: Disk, S: BlockSource<()> + Drop, C: PageConsumer, R: Wait + AllocGlobal>(
    rt: &R,
    disk: D,
    settings: &ReaderSettings,
    relation: u32,
    source: S,
    consumer: &mut C,
) -> (Result<Ended, AllocError>, D)
    requires world { IsReaderWorld D.Disk W.World disk }
    requires readable { IsReadable settings.now }
    requires relation { relation < W.relations }
    requires fits { length (S.left source) < 2 ^ 32 }
    requires few { length (S.left source) ≤ C.most consumer.old }
    requires held { C.holds consumer.old [] }
    ensures taken { IfOk result.0 (PagesTaken (C.holds consumer.new) settings.now.rules W.told
        (stream_entries relation (S.left source))) }
    ensures unread { IfOk result.0 (UnreadHasCause (D.faults disk) (D.faults result.1)) }
    ensures stopped { IfOk result.0 (IfStopped (C.has_enough consumer.new)) }
    ensures told { TellsWorld D.Disk W.World result.1 }
    ensures most { C.most consumer.new ≡ C.most consumer.old }
    ensures unchanged { OnErr result.0 (consumer.new ≡ consumer.old) }
    ensures no_fault { OnErr result.0 (D.faults result.1 ≡ D.faults disk) }
{
    match PageReader::<W, D>::open(rt.alloc(), disk, settings) {
        Ok(mut reader) => {
            let ended = reader.for_each_page(rt, relation, source, consumer);
            (Ok(ended), reader.close())
        }
        Err((error, disk)) => (Err(error), disk),
    }
}

/// The consumer takes the pages of these blocks of the relation, in order, with these settings, up
/// to the first that is damaged, missing or unread, or until it wants no more. The disk comes
/// back. They are those of one thread's synchronous reads, where the disk tells its contents.
///
/// Err where there is no memory: then nothing was read. It may wait.
pub fn for_each_page_with<
    D: Disk,
    S: BlockSource<()> + Drop,
    C: PageConsumer,
    R: Wait + AllocGlobal,
>(
    rt: &R,
    disk: D,
    settings: &ReaderSettings,
    relation: u32,
    source: S,
    consumer: &mut C,
) -> (Result<Ended, AllocError>, D)
    requires readable { IsReadable settings.now }
    requires relation { relation < D.relations disk }
    requires fits { length (S.left source) < 2 ^ 32 }
    requires few { length (S.left source) ≤ C.most consumer.old }
    requires held { C.holds consumer.old [] }
    ensures taken { IfOk result.0 (PagesTaken (C.holds consumer.new) settings.now.rules (D.told disk)
        (stream_entries relation (S.left source))) }
    ensures unread { IfOk result.0 (UnreadHasCause (D.faults disk) (D.faults result.1)) }
    ensures stopped { IfOk result.0 (IfStopped (C.has_enough consumer.new)) }
    ensures told { D.told result.1 ≡ D.told disk }
    ensures relations { D.relations result.1 ≡ D.relations disk }
    ensures most { C.most consumer.new ≡ C.most consumer.old }
    ensures unchanged { OnErr result.0 (consumer.new ≡ consumer.old) }
    ensures no_fault { OnErr result.0 (D.faults result.1 ≡ D.faults disk) }
{
    read_in::<Brand, D, S, C, R>(rt, disk, settings, relation, source, consumer)
}

/// The same with the settings of [`ReaderSettings::new`]: checksums are not verified, and a damaged
/// page ends the reading.
pub fn for_each_page<D: Disk, S: BlockSource<()> + Drop, C: PageConsumer, R: Wait + AllocGlobal>(
    rt: &R,
    disk: D,
    relation: u32,
    source: S,
    consumer: &mut C,
) -> (Result<Ended, AllocError>, D)
    requires relation { relation < D.relations disk }
    requires fits { length (S.left source) < 2 ^ 32 }
    requires few { length (S.left source) ≤ C.most consumer.old }
    requires held { C.holds consumer.old [] }
    ensures taken { IfOk result.0 (PagesTaken (C.holds consumer.new) default_rules (D.told disk)
        (stream_entries relation (S.left source))) }
    ensures unread { IfOk result.0 (UnreadHasCause (D.faults disk) (D.faults result.1)) }
    ensures stopped { IfOk result.0 (IfStopped (C.has_enough consumer.new)) }
    ensures told { D.told result.1 ≡ D.told disk }
    ensures relations { D.relations result.1 ≡ D.relations disk }
    ensures most { C.most consumer.new ≡ C.most consumer.old }
    ensures unchanged { OnErr result.0 (consumer.new ≡ consumer.old) }
    ensures no_fault { OnErr result.0 (D.faults result.1 ≡ D.faults disk) }
{
    let settings = ReaderSettings::new();
    for_each_page_with(rt, disk, &settings, relation, source, consumer)
}
