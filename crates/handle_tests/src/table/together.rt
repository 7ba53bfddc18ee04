//! Two actors of one table, compared between their calls.
ghost use Rattle.std.specs.Prelude.{◌≡◌, ◌<◌, IfSome};
ghost use Rattle.aio_handle.specs.ContractViews.{IsActorOf, IsSameActor};

use aio_fixtures::{EmptyIo, last_actor, submit_io};
use aio_handle::{Actor, Claimed, Record, Table, laws};
use aio_word::WaitRef;
use page_check::World;
use std::marker::Brand;
use std::process::Abort;
use std::test::Fail;

/// Two actors try to claim one I/O, one after the other. That not both have it is proved from what
/// their calls say, whatever other actors do.
fn claim_by_both<R: Record, W: World>(
    table: &Table<R, W>,
    one: &mut Actor<R, W>,
    other: &mut Actor<R, W>,
    reference: WaitRef,
) -> (Option<Claimed<R, W>>, Option<Claimed<R, W>>)
    requires table { IsActorOf table.now one.old × IsActorOf table.now other.old }
    requires range { reference.handle < W.handles }
    ensures same { IsSameActor one.old one.new × IsSameActor other.old other.new }
    ensures one_winner { IfSome result.0 (λ a. IfSome result.1 (λ b. ⊥)) }
{
    let first = table.claim(one, reference);
    let second = table.claim(other, reference);
    table.stand_together(one, other);
    laws::one_claim_has_one_winner();
    (first, second)
}

/// The first has won the one claim, and the I/O has then ended for neither of them.
fn claims_and_checks<W: World, R: Abort + AllocGlobal>(rt: &R) -> Result<(), Fail>
    requires { W.handles ≡ 1 }
{
    let (table, mut actors) = Table::<EmptyIo, W>::open(rt.alloc(), 1, 1, 2, 0)?;
    let mut other = last_actor(&table, &mut actors).ok_or("no actor")?;
    let mut one = last_actor(&table, &mut actors).ok_or("no actor")?;
    let mut backend = last_actor(&table, &mut actors).ok_or("no actor")?;
    let token = submit_io(&table, &mut backend, EmptyIo::new()).ok_or("no free handle")?;
    let reference = token.reference();
    let (first, second) = claim_by_both(&table, &mut one, &mut other, reference);
    assert!(rt; first.is_some() && second.is_none());
    assert!(rt; !table.check(&mut one, reference) && !table.check(&mut other, reference));
    Ok(())
}

#[test]
fn one_of_two_claims_wins(rt: HostRuntime) -> Result<(), Fail> {
    claims_and_checks::<Brand, _>(&rt)
}
