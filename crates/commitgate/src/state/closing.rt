//! The seats that are given back, and what a gate leaves.
ghost use Rattle.std.specs.Prelude.{◌≡◌, length};
ghost use Rattle.runstate.specs.Ledger.{entries_of};
ghost use Rattle.commitgate.specs.GateJournals.{IsLedger};
ghost use Rattle.commitgate.specs.Closing.{IsClosed, IsEndIn, Settled};

use crate::closed::Closed;
use crate::context::Context;
use crate::naming::Naming;
use crate::seat::Seat;
use crate::state::GateState;
use std::sync::Wait;

impl<'d, K: Naming> GateState<'d, K> {
    /// The number of entries that a seat appended. The ledger extends what it has seen, and has in its name just what it knows.
    pub(crate) fn settle<R: Wait>(&mut self, context: &Context<'_, K, R>, mut seat: Seat<K>) -> u64
        ensures same { self.new ≡ self.old }
        ensures share { result ≡ length seat.positions }
        ensures settled { Settled self.old.ledger seat }
    {
        let share = seat.share();
        self.synchronize(context, &mut seat);
        share
    }

    /// The journal, the lines and the end, with these numbers of entries of the seats.
    pub(crate) fn close(self, committed: Vec<u64>) -> Closed
        ensures closed { IsClosed K.named result }
        ensures ledger { IsLedger K.named self.entry.ledger }
        ensures entries { result.entries ≡ entries_of self.entry.ledger }
        ensures end { IsEndIn self.entry.ledger result.end }
        ensures committed { result.committed ≡ committed.items }
    {
        let end = self.end();
        let GateState {
            run_state,
            spare: _,
            of: _,
        } = self;
        let left = run_state.leave();
        Closed::new(left.0, left.1, end, committed)
    }
}
