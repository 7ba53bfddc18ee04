//! A reader, which is opened once and used for several readings.
ghost use Rattle.std.specs.Prelude.{◌≡◌, ◌<◌, ◌≤◌, ◌+◌, ◌-◌, ◌^◌, [], length, IfOk, IfErr};
ghost use Rattle.aio_disk.specs.Disk.{AnswersLength};
ghost use Rattle.stream_answer.specs.StreamAnswers.{stream_entries};
ghost use Rattle.page_reader.specs.PagesTaken.{IfStopped, PagesTaken, UnreadHasCause};
ghost use Rattle.page_reader.specs.Readers.{IsReaderWorld, TellsWorld};
ghost use Rattle.page_reader.specs.Settings.{IsReadable};

use crate::consumer::{Ended, PageConsumer};
use crate::memory::Memory;
use crate::reading::read_pages;
use crate::settings::ReaderSettings;
use aio_disk::{DeviceFault, Disk};
use block_source::BlockSource;
use method_sync::{Runner, SyncMethod};
use page_check::World;
use std::alloc::{AllocError, Global};
use std::marker::Model;
use std::sync::Wait;

/// Reads pages of a disk's relations, several times over one pool: what one reading has left in
/// the pool, the next one does not read again.
///
/// Contracts see its rules, how often a read of its disk has failed, and its room: how many blocks
/// it may still be asked for. It is used in a function over `W: World`, which is called with
/// [`Brand`](std::marker::Brand), as [`for_each_page_with`](crate::for_each_page_with) does.
#[derive(Drop)]
pub struct PageReader<W: World, D: Disk> {
    memory: Memory<W>,
    // None only while a reading has it.
    disk: Option<D>,
    // The lives that each handle has left.
    room: u64,
}

impl<W: World, D: Disk> Model for PageReader<W, D> {
    ghost use Rattle.read_stream.specs.Desks.{desk_settings};
    ghost use Rattle.page_reader.specs.Readers.{ReaderView, IsReader, faults_of};

    ghost Value = { ReaderView };

    ghost view = { λ r. record {
      rules = (desk_settings r.memory.desk).rules;
      room = r.room;
      faults = faults_of D.Disk r.disk;
    } };

    ghost invariant = { λ r. IsReader D.Disk W.World r.memory.table r.memory.actor r.memory.desk
        r.disk r.room };
}

impl<W: World, D: Disk> PageReader<W, D> {
    /// A reader of this disk, which takes all memory that its readings need.
    ///
    /// Err where there is no memory: then the disk comes back.
    pub fn open(
        alloc: Global,
        disk: D,
        settings: &ReaderSettings,
    ) -> Result<PageReader<W, D>, (AllocError, D)>
        requires world { IsReaderWorld D.Disk W.World disk }
        requires readable { IsReadable settings.now }
        ensures rules { IfOk result (λ reader. reader.rules ≡ settings.now.rules) }
        ensures room { IfOk result (λ reader. reader.room ≡ 2 ^ 58 - 1) }
        ensures faults { IfOk result (λ reader. reader.faults ≡ D.faults disk) }
        ensures back { IfErr result (λ error. error.1 ≡ disk) }
    {
        let of_stream = settings.of_stream(disk.segment());
        match Memory::open(alloc, &of_stream, settings.frames) {
            Ok(memory) => {
                let room = memory.actor.room();
                Ok(PageReader {
                    memory,
                    disk: Some(disk),
                    room,
                })
            }
            Err(error) => Err((error, disk)),
        }
    }

    /// How many blocks it may still be asked for. A reader that has too few left is closed, and
    /// another one opened.
    pub fn room(&self) -> u64
        ensures { result ≡ self.now.room }
    {
        self.room
    }

    /// How many blocks the relation has now.
    pub fn blocks(&mut self, relation: u32) -> Result<u32, DeviceFault>
        requires relation { relation < W.relations }
        ensures length { AnswersLength W.told relation result }
        ensures same { self.new ≡ self.old }
    {
        let Some(mut disk) = self.disk.take() else {
            unreachable!()
        };
        let blocks = disk.blocks(relation);
        self.disk = Some(disk);
        blocks
    }

    /// The consumer takes the pages of these blocks of the relation, in order, up to the first that
    /// is damaged, missing or unread, or until it wants no more. A block is read where the pool
    /// does not have its page. However it has ended, another reading may follow. It may wait.
    pub fn for_each_page<S: BlockSource<()> + Drop, C: PageConsumer, R: Wait>(
        &mut self,
        rt: &R,
        relation: u32,
        source: S,
        consumer: &mut C,
    ) -> Ended
        requires relation { relation < W.relations }
        requires room { length (S.left source) ≤ self.old.room }
        requires few { length (S.left source) ≤ C.most consumer.old }
        requires held { C.holds consumer.old [] }
        ensures taken { PagesTaken (C.holds consumer.new) self.old.rules W.told
            (stream_entries relation (S.left source)) result }
        ensures unread { UnreadHasCause self.old.faults self.new.faults result }
        ensures stopped { IfStopped (C.has_enough consumer.new) result }
        ensures most { C.most consumer.new ≡ C.most consumer.old }
        ensures rules { self.new.rules ≡ self.old.rules }
        ensures room { self.old.room ≤ self.new.room + length (S.left source) }
    {
        let Some(disk) = self.disk.take() else {
            unreachable!()
        };
        let mut runner = Runner {
            disk,
            places: &self.memory.pool,
        };
        let ended = read_pages(
            rt,
            &self.memory.table,
            &self.memory.pool,
            &mut self.memory.actor,
            &mut self.memory.desk,
            &mut SyncMethod,
            &mut runner,
            relation,
            source,
            consumer,
        );
        self.disk = Some(runner.disk);
        self.room = self.memory.actor.room();
        ended
    }

    /// Gives the disk back.
    pub fn close(self) -> D
        ensures told { TellsWorld D.Disk W.World result }
        ensures faults { D.faults result ≡ self.faults }
    {
        let PageReader {
            memory: _,
            disk,
            room: _,
        } = self;
        let Some(disk) = disk else { unreachable!() };
        disk
    }
}
