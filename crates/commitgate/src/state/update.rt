//! The first active update, and all of them up to one that wakes a process.
ghost use Rattle.std.specs.Prelude.{◌≡◌, vec_len, IsTrue};
ghost use Rattle.std.specs.Vec.{vec_capacity};
ghost use Rattle.commitgate.specs.Batches.{TicketsEnd, UpdatesAnswered, UpdatesAnsweredTo};
ghost use Rattle.commitgate.specs.declared.reply.UpdatesEnd.TheVariants.{NoRoom};
ghost use Rattle.commitgate.specs.Replies.{UpdateAnswered};
ghost use Rattle.commitgate.specs.SeatAnswers.{UpdateAnsweredTo};

use crate::context::Context;
use crate::naming::Naming;
use crate::reply::{Grant, UpdateReply, UpdatesEnd};
use crate::seat::Seat;
use crate::state::GateState;
use model::end::Why;
use model::entry::Entry;
use std::sync::Wait;

impl<'d, K: Naming> GateState<'d, K> {
    /// The same as `apply_update`, with a seat that may have been synchronized before, in this holding of the lock.
    fn update<R: Wait>(
        &mut self,
        context: &Context<'_, K, R>,
        seat: &mut Seat<K>,
        synchronized: bool,
    ) -> UpdateReply<K>
        requires { IsTrue synchronized → seat.old.seen ≡ self.old.ledger }
        ensures state { UpdateAnswered K.named.code K.named.limits seat.old.worker self.old self.new result }
        ensures seat { UpdateAnsweredTo K.named seat.old seat.new result }
        ensures seen { seat.new.seen ≡ self.new.ledger }
    {
        self.invariant_holds();
        self.synchronize_unless(context, seat, synchronized);
        if let Some(why) = self.ended() {
            return UpdateReply::Stopped(why);
        }
        let Some(number) = self.run_state.regions.first_update() else {
            return UpdateReply::Nothing;
        };
        if self.is_full() {
            self.stop(context, seat, Why::Entries);
            self.invariant_holds();
            return UpdateReply::Stopped(Why::Entries);
        }
        match self.append(context, seat, Entry::Update(number), None) {
            Ok(grant) => {
                self.invariant_holds();
                UpdateReply::Accepted(grant)
            }
            Err(_) => UpdateReply::NoMemory,
        }
    }

    /// Makes the first active update and appends it, where the run goes on, an update is active, and the journal isn't
    /// full (11.4). A journal that is full stops the run.
    pub fn apply_update<R: Wait>(
        &mut self,
        context: &Context<'_, K, R>,
        seat: &mut Seat<K>,
    ) -> UpdateReply<K>
        ensures state { UpdateAnswered K.named.code K.named.limits seat.old.worker self.old self.new result }
        ensures seat { UpdateAnsweredTo K.named seat.old seat.new result }
        ensures seen { seat.new.seen ≡ self.new.ledger }
    {
        self.update(context, seat, false)
    }

    /// Makes the active updates in the order of their numbers, and appends each, up to the first one that makes evaluations
    /// active, as long as the run goes on, the journal isn't full and the list has room for one more grant. What the list
    /// held before is dropped.
    pub fn apply_updates<R: Wait>(
        &mut self,
        context: &Context<'_, K, R>,
        seat: &mut Seat<K>,
        grants: &mut Vec<Grant<K>>,
    ) -> UpdatesEnd
        ensures state { UpdatesAnswered K.named.code K.named.limits seat.old.worker self.old grants.new.items result self.new }
        ensures seat { UpdatesAnsweredTo K.named seat.old grants.new.items result seat.new }
        ensures tickets { TicketsEnd grants.new.items result }
        ensures capacity { vec_capacity grants.new ≡ vec_capacity grants.old }
        ensures full { result ≡ NoRoom → vec_len grants.new ≡ vec_capacity grants.new }
    {
        grants.clear();
        let mut synchronized = false;
        while grants.len() < grants.capacity() {
            match self.update(context, seat, synchronized) {
                UpdateReply::Accepted(grant) => {
                    synchronized = true;
                    let is_quiet = grant.tickets.is_empty();
                    grants.push_reserved(grant);
                    if !is_quiet {
                        return UpdatesEnd::Woke;
                    }
                }
                UpdateReply::Nothing => return UpdatesEnd::Nothing,
                UpdateReply::Stopped(why) => return UpdatesEnd::Stopped(why),
                UpdateReply::NoMemory => return UpdatesEnd::NoMemory,
            }
        }
        UpdatesEnd::NoRoom
    }
}
