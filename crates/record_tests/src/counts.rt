//! How many callbacks there is room for, and what each Count counts.
ghost use Rattle.std.specs.Prelude.{◌≡◌, None};

use crate::reads::{aimed, completed};
use aio_callback::CallbackId::{Buffer, Count, File};
use aio_callback::{CallbackId, Counts, NoPlaces, Raw, ReadIo, TooMany};
use aio_handle::Record;
use page_check::World;
use std::alloc::Global;
use std::marker::Brand;
use std::sync::Wait;
use std::test::Fail;

#[test]
fn five_callbacks_are_too_many(rt: HostRuntime) -> Result<(), Fail> {
    let mut io = ReadIo::make(rt.alloc(), 5)?;
    assert_eq!(rt;
        io.aim(3, 10, 4, true, &[Count, Buffer, File, Count]),
        Ok(())
    );
    assert_eq!(rt; io.aim(4, 20, 5, false, &[File; 5]), Err(TooMany(5)));
    assert_eq!(rt; (io.relation(), io.first(), io.count()), (3, 10, 4));
    Ok(())
}

/// What a completed read of four pages counts, beside these counts.
fn counted<W: World, T: Wait>(
    rt: &T,
    alloc: Global,
    ids: &[CallbackId],
    mut counts: Counts,
) -> Result<(Counts, bool), Fail>
    requires told { W.told ≡ None }
{
    let mut io = aimed(alloc, ids, 10, false)?;
    completed::<W, NoPlaces, T>(rt, &mut io, Raw::Read(4), &mut NoPlaces);
    let before = io.settled();
    io.complete_local(&mut counts);
    Ok((counts, !before && io.settled()))
}

#[test]
fn each_count_counts(rt: HostRuntime) -> Result<(), Fail> {
    let rows: [(&[CallbackId], (u64, u64), (u64, u64)); 4] = [
        (&[Buffer, File], (5, 6), (5, 6)),
        (&[Count, Buffer, File], (5, 6), (6, 10)),
        (&[Count, File, Count], (5, 6), (7, 14)),
        (&[Count], (u64::MAX, u64::MAX - 3), (u64::MAX, u64::MAX)),
    ];
    for (ids, (ios, blocks), wanted) in rows {
        let counts = Counts { ios, blocks };
        let (counts, settles) = counted::<Brand, _>(&rt, rt.alloc(), ids, counts)?;
        assert_eq!(rt; (counts.ios, counts.blocks), wanted, "with {ids:?}");
        assert!(rt; settles);
    }
    Ok(())
}
