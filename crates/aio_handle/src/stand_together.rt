//! Two actors at one moment.
ghost use Rattle.std.specs.Prelude.{◌≡◌};
ghost use Rattle.aio_handle.specs.ActorPairs.{StandTogether};

use crate::actor::Actor;
use crate::record::Record;
use crate::steps::{CompareAt, JoinLists, SplitAll, SplitFirst};
use crate::table::Table;
use page_check::World;

impl<R: Record, W: World> Table<R, W> {
    ghost use Rattle.aio_handle.specs.ContractViews.{IsActorOf};

    /// Changes nothing, and tells that both actors' lists stand at this moment in one state of the
    /// machine. Every other call but `close` tells this of its own actor alone.
    ///
    /// So whoever holds two actors of a table at once, between any of their calls, may compare what
    /// they did: `laws` says that of two claims of one incarnation at most one was won. It loads a
    /// word five times, and no call of a scan needs it.
    pub fn stand_together(&self, one: &mut Actor<R, W>, other: &mut Actor<R, W>)
        requires table { IsActorOf self.now one.old × IsActorOf self.now other.old }
        ensures same { (one.new ≡ one.old) × (other.new ≡ other.old) }
        ensures together { StandTogether self.now.config one.new.known other.new.known }
    {
        // A step tells of one seat's lists, so both lists lie in one seat for a load.
        let lists = self.inner.shared.split_seat::<SplitAll>(&mut other.seat);
        self.inner
            .shared
            .join_seat::<JoinLists>(&mut one.seat, lists);
        self.inner.shared.load::<CompareAt>(&mut one.seat, 0);
        let back = self.inner.shared.split_seat::<SplitFirst>(&mut one.seat);
        self.inner
            .shared
            .join_seat::<JoinLists>(&mut other.seat, back);
    }
}
