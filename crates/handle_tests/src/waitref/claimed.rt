//! An owner whose I/O a runner has claimed, and ends at a moment of the owner's wait.
ghost use Rattle.std.specs.Prelude.{◌≡◌};
ghost use Rattle.aio_word.specs.Tokens.{IsInFlight};
ghost use Rattle.aio_handle.specs.ContractViews.{IsActorOf};
ghost use Rattle.aio_fixtures.specs.Actors.{HasClaimed};

use crate::second_handle::submit_second;
use crate::waitref::moment::Moment;
use crate::waitref::own::{WaitOutcome, wait_counted};
use aio_fixtures::{EmptyIo, claim_io, complete_as, last_actor};
use aio_handle::{Actor, Claimed, InFlight, Table};
use aio_word::Class;
use page_check::World;
use std::marker::Brand;
use std::process::Abort;
use std::sync::Wait;
use std::test::Fail;
use std::thread::{Threads, join};

/// An owner waits for its I/O, and at that moment a runner completes it short.
pub(super) fn owner_beside_runner<W: World + Send + Sync, T: Threads + Wait + Sync>(
    rt: &T,
    table: &Table<EmptyIo, W>,
    owner: Actor<EmptyIo, W>,
    token: InFlight<W>,
    mut runner: Actor<EmptyIo, W>,
    claimed: Claimed<EmptyIo, W>,
    moment: &Moment,
) -> WaitOutcome
    requires owner { IsActorOf table.now owner × IsInFlight owner.known token }
    requires runner { HasClaimed table.now runner claimed.0 claimed.1.label }
    requires handles { W.handles ≡ 8 }
{
    let (waited, ()) = join(
        rt,
        || -> WaitOutcome
            requires { IsActorOf table.now owner × IsInFlight owner.known token }
        {
            moment.begin();
            wait_counted(rt, table, owner, token)
        },
        ||
            requires { HasClaimed table.now runner claimed.0 claimed.1.label × (W.handles ≡ 8) }
        {
            moment.all_have_begun(rt);
            moment.one_rests(rt, table, SHORT.0);
            moment.give_up_turns();
            complete_as(table, &mut runner, claimed, Class::Short);
        },
    );
    waited
}

/// An I/O of handle 5 that a runner has claimed before its owner begins to wait, and that it ends
/// short at the moment. The owner is the second of two backends with four handles each, whose
/// generations begin at 3.
fn claimed_before<W: World + Send + Sync, R: Abort + AllocGlobal + Threads + Wait + Sync>(
    rt: &R,
    moment: &Moment,
) -> Result<(), Fail>
    requires { W.handles ≡ 8 }
{
    let (table, mut actors) = Table::<EmptyIo, W>::open(rt.alloc(), 2, 4, 1, 3)?;
    let mut runner = last_actor(&table, &mut actors).ok_or("no actor")?;
    let mut owner = last_actor(&table, &mut actors).ok_or("no actor")?;
    let token = submit_second(&table, &mut owner).ok_or("no free handle")?;
    let claimed = claim_io(&table, &mut runner, token.reference()).ok_or("the I/O is not claimed")?;
    let waited = owner_beside_runner(rt, &table, owner, token, runner, claimed, moment);
    assert!(rt; waited == SHORT);
    Ok(())
}

pub(super) const SHORT: WaitOutcome = (5, Class::Short, 0);

#[test]
fn runner_has_claimed_before(rt: HostRuntime) -> Result<(), Fail> {
    claimed_before::<Brand, _>(&rt, &Moment::new(1, 0))
}

/// The runner ends the I/O at another moment of the owner's wait each time: while the owner looks,
/// on its way to sleep, and asleep.
#[test]
fn owner_sleeps_until_it_is_woken(rt: HostRuntime) -> Result<(), Fail> {
    for turns in 0..400 {
        claimed_before::<Brand, _>(&rt, &Moment::new(1, 5 * turns))?;
    }
    Ok(())
}

/// The runner ends the I/O only once the owner rests: a wait that looked again and again instead
/// would never return.
#[test]
fn a_wait_rests_and_does_not_spin(rt: HostRuntime) -> Result<(), Fail> {
    claimed_before::<Brand, _>(&rt, &Moment::when_rested())
}
