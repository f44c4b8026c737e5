// Many logs become one history.
ghost use Rattle.std.specs.Prelude.{◌≡◌, All, IfErr, IfOk, OnOk, length};
ghost use Rattle.split_stores.specs.Merging.{logs_of};
ghost use Rattle.split_stores.specs.Merged.{Settled, SettleStops};

use crate::seat::ActorSeat;
use crate::settling::{SettleStop, settle_logs};
use crate::split::Split;
use cluster_core::Cluster;
use std::alloc::Global;

impl Split {
    /// The cluster that the logs of all seats lead to: the events in the order of their ticks, each one step of the machine from
    /// the opening on, under the fates that the script plans for the store calls in that order, and at the readings of the clock
    /// that rises in that order. Each entry kept the items that its event appends there, and the history is what they kept, in
    /// that order, each item once.
    ///
    /// Missing where not all seats are handed in, Torn at the first tick whose entry kept something else, NoMemory where memory is
    /// refused.
    pub fn settle(self, alloc: Global, seats: Vec<ActorSeat>) -> Result<Cluster, SettleStop>
        requires { All (λ s. s.word ≡ self.id) seats.items }
        ensures settled { IfOk result (λ cluster. Settled self.plan (logs_of seats.items) cluster) }
        ensures all { OnOk result (length seats.items ≡ self.seats) }
        ensures stopped { IfErr result (SettleStops self.plan self.seats seats.items) }
    {
        let Split {
            word,
            actors,
            plan,
            ..
        } = self;
        settle_logs(alloc, &plan, word, actors, seats)
    }
}
