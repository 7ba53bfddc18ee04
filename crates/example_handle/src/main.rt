//! One I/O handle through its life, by two threads: a backend, whose handle it is, and a runner,
//! which executes what others submit.
#![tactic(auto)]

ghost use Rattle.std.specs.Prelude.{◌≡◌, ◌<◌, IfOk, IfSome};
ghost use Rattle.aio_handle.specs.ContractViews.{IsActorOf};
ghost use Rattle.example_handle.specs.ActorPair.{IsInFlightAbout, IsIdle};

mod backend;
mod note;
mod pair;
mod runner;

use crate::backend::{offer, take_in};
use crate::note::Note;
use crate::pair::{close_pair, open_pair};
use crate::runner::execute;
use aio_handle::{Actor, Totals};
use page_check::World;
use std::alloc::{AllocError, Global};
use std::io;
use std::marker::Brand;
use std::sync::Wait;
use std::thread::{Threads, join};

/// One life of the handle: the runner does its part beside the backend's second half. The answers
/// are the double, and who executed how many I/Os.
fn live<W: World + Send + Sync, T: Threads + Wait + Sync>(
    rt: &T,
    alloc: Global,
) -> Result<Option<(u64, Totals)>, AllocError>
    requires { W.handles ≡ 1 }
    ensures { IfOk result (λ found. IfSome found (λ f. f.0 ≡ 42)) }
{
    let (table, backend, runner) = open_pair::<W>(alloc)?;
    let Some((backend, token)) = offer(&table, backend) else {
        return Ok(None);
    };
    let reference = token.reference();
    let shared = &table;
    let (runner, (backend, double)) = join(
        rt,
        || -> Actor<Note, W>
            requires { IsIdle shared.now runner × (reference.handle < W.handles) }
            ensures { IsIdle shared.entry.now result }
        { execute(shared, runner, reference) },
        || -> (Actor<Note, W>, u64)
            requires { IsActorOf shared.now backend × IsInFlightAbout token 21 backend.known }
            ensures { IsIdle shared.entry.now result.0 × (result.1 ≡ 42) }
        { take_in(rt, shared, backend, token) },
    );
    Ok(Some((double, close_pair(alloc, table, backend, runner)?)))
}

fn main(rt: HostRuntime) -> io::Result<()> {
    let Some((double, totals)) = live::<Brand, _>(&rt, rt.alloc())? else {
        return println!(rt; "no handle is free");
    };
    println!(rt; "21 doubled is {double}")?;
    println!(rt;
        "incarnations {}, by the runner {}, by the backend {}",
        totals.incarnations(),
        totals.by_runners(),
        totals.by_backends()
    )
}
