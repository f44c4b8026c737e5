// The events of the cluster, each one call.
ghost use Rattle.std.specs.Prelude.{◌≤◌, ◌+◌, ◌^◌};
ghost use Rattle.port_io.specs.declared.weather.Fate.TheVariants.{Works};
ghost use Rattle.machine.specs.Machine.{stepped, asks};
ghost use Rattle.event_parts.specs.Made.{Asks};
ghost use Rattle.cluster_core.specs.Served.{NeverLacksIf, is_served};
ghost use Rattle.cluster_core.specs.ClusterModel.{MakesStep, step_under};

use crate::Cluster;
use event_parts::Stopped;
use history_book::{Actor, Note};
use machine::Event;
use port_io::{CalmWeather, Weather};
use stamp_base::{KeyNo, NodeNo, SessionNo, TxnId, Value};

impl Cluster {
    /// The base clock stands at `to`. NoMemory where memory is refused.
    pub fn tick(&mut self, to: u64) -> Result<(), Stopped>
        ensures { MakesStep (stepped self.old.state (Event.Tick to) Works) self.old self.new result }
    {
        self.make(&mut CalmWeather::new(), &Event::Tick { to })
    }

    /// The actor notes its part in the script. NoMemory where memory is refused.
    pub fn note(&mut self, actor: Actor, note: Note) -> Result<(), Stopped>
        ensures { MakesStep (stepped self.old.state (Event.Note actor note) Works) self.old self.new result }
    {
        self.make(&mut CalmWeather::new(), &Event::Note { actor, note })
    }

    /// The node takes the master record at a reading of its clock, and has an oracle from then on: refused as Holding where it has
    /// one, as Early while a lease may stand, and as Spent where no range of stamps is left. A failed call leaves it without one.
    /// StoreFault where the record's store fails, NoMemory where memory is refused.
    pub fn take<W: Weather>(
        &mut self,
        weather: &mut W,
        node: NodeNo,
        reading: u64,
    ) -> Result<(), Stopped>
        requires far { reading ≤ 2 ^ 61 }
        requires steady { self.old.state.seen ≤ reading + self.old.state.setup.skew }
        ensures made { MakesStep (step_under (W.ahead weather.old) self.old.state (Event.Take node reading)) self.old self.new result }
        ensures asked { Asks result (asks self.old.state (Event.Take node reading)) (W.ahead weather.old) (W.ahead weather.new)
            (W.faults weather.old) (W.faults weather.new) }
    {
        self.make(weather, &Event::Take { node, reading })
    }

    /// The node's lease lasts from the reading on: refused as NoOracle, or as Replaced where another node has taken the record.
    /// StoreFault where the record's store fails, NoMemory where memory is refused.
    pub fn renew<W: Weather>(
        &mut self,
        weather: &mut W,
        node: NodeNo,
        reading: u64,
    ) -> Result<(), Stopped>
        requires far { reading ≤ 2 ^ 61 }
        requires steady { self.old.state.seen ≤ reading + self.old.state.setup.skew }
        ensures made { MakesStep (step_under (W.ahead weather.old) self.old.state (Event.Renew node reading)) self.old self.new result }
        ensures asked { Asks result (asks self.old.state (Event.Renew node reading)) (W.ahead weather.old) (W.ahead weather.new)
            (W.faults weather.old) (W.faults weather.new) }
    {
        self.make(weather, &Event::Renew { node, reading })
    }

    /// The node may draw one range of stamps more: refused as NoOracle, as Replaced, or as Spent. StoreFault where the record's
    /// store fails, NoMemory where memory is refused.
    pub fn extend<W: Weather>(&mut self, weather: &mut W, node: NodeNo) -> Result<(), Stopped>
        ensures made { MakesStep (step_under (W.ahead weather.old) self.old.state (Event.Extend node)) self.old self.new result }
        ensures asked { Asks result (asks self.old.state (Event.Extend node)) (W.ahead weather.old) (W.ahead weather.new)
            (W.faults weather.old) (W.faults weather.new) }
    {
        self.make(weather, &Event::Extend { node })
    }

    /// The node's oracle ends, and the requests that it holds are lost: refused as NoOracle. A commit that was in flight there has
    /// an open outcome. NoMemory where memory is refused.
    pub fn crash(&mut self, node: NodeNo) -> Result<(), Stopped>
        ensures { MakesStep (stepped self.old.state (Event.Crash node) Works) self.old self.new result }
    {
        self.make(&mut CalmWeather::new(), &Event::Crash { node })
    }

    /// The session asks the node for a start: refused as Gone or Busy, as NoOracle, or as Full. NoMemory where memory is refused.
    pub fn ask_begin(&mut self, session: SessionNo, node: NodeNo) -> Result<(), Stopped>
        ensures { MakesStep (stepped self.old.state (Event.AskBegin session node) Works) self.old self.new result }
    {
        self.make(&mut CalmWeather::new(), &Event::AskBegin { session, node })
    }

    /// The session asks the node to commit what it wrote: refused as Gone, NoTransaction or Busy, as NoOracle, or as Full. A
    /// transaction that wrote nothing ends at once. NoMemory where memory is refused.
    pub fn ask_commit(&mut self, session: SessionNo, node: NodeNo) -> Result<(), Stopped>
        ensures { MakesStep (stepped self.old.state (Event.AskCommit session node) Works) self.old self.new result }
    {
        self.make(&mut CalmWeather::new(), &Event::AskCommit { session, node })
    }

    /// The node accepts the session's request: refused as NoOracle or NoRequest, and as Expired or OldEpoch, which end the request.
    /// The lease is looked at here alone. NoMemory where memory is refused.
    pub fn accept(&mut self, node: NodeNo, session: SessionNo, reading: u64) -> Result<(), Stopped>
        requires far { reading ≤ 2 ^ 61 }
        requires steady { self.old.state.seen ≤ reading + self.old.state.setup.skew }
        ensures { MakesStep (stepped self.old.state (Event.Accept node session reading) Works) self.old self.new result }
    {
        self.make(
            &mut CalmWeather::new(),
            &Event::Accept {
                node,
                session,
                reading,
            },
        )
    }

    /// The node draws the stamp of the session's request: refused as NoOracle or NoRequest, as Conflict, Hidden, or by the record's
    /// refusal that the oracle keeps, which end the request, or as NoStamp. NoMemory where memory is refused, never for an accepted
    /// request.
    pub fn decide(&mut self, node: NodeNo, session: SessionNo) -> Result<(), Stopped>
        ensures made { MakesStep (stepped self.old.state (Event.Decide node session) Works) self.old self.new result }
        ensures served { NeverLacksIf (is_served self.old.state (Event.Decide node session)) result }
    {
        self.make(&mut CalmWeather::new(), &Event::Decide { node, session })
    }

    /// The node places the record of the session's commit, unless a mark stands in its place: refused as NoOracle or NoRequest.
    /// StoreFault where the commit table fails. NoMemory where memory is refused, never for a commit that it is to place.
    pub fn put<W: Weather>(
        &mut self,
        weather: &mut W,
        node: NodeNo,
        session: SessionNo,
    ) -> Result<(), Stopped>
        ensures made { MakesStep (step_under (W.ahead weather.old) self.old.state (Event.Put node session)) self.old self.new result }
        ensures asked { Asks result (asks self.old.state (Event.Put node session)) (W.ahead weather.old) (W.ahead weather.new)
            (W.faults weather.old) (W.faults weather.new) }
        ensures served { NeverLacksIf (is_served self.old.state (Event.Put node session)) result }
    {
        self.make(weather, &Event::Put { node, session })
    }

    /// The node answers the session's request, or hands a direct commit to its session: refused as NoOracle or NoRequest, or as
    /// NotYet while a commit below the start, which the node is to place, is not settled. A commit that a mark has ended is told as
    /// Invalid, and one whose put failed as Open. NoMemory where memory is refused, never for a request that has its answer.
    pub fn answer(&mut self, node: NodeNo, session: SessionNo) -> Result<(), Stopped>
        ensures made { MakesStep (stepped self.old.state (Event.Answer node session) Works) self.old self.new result }
        ensures served { NeverLacksIf (is_served self.old.state (Event.Answer node session)) result }
    {
        self.make(&mut CalmWeather::new(), &Event::Answer { node, session })
    }

    /// The session writes the value at the key: refused as Gone, NoTransaction, Busy or TooManyKeys. A failed write ends the
    /// transaction. StoreFault where the cells fail, NoMemory where memory is refused.
    pub fn write<W: Weather>(
        &mut self,
        weather: &mut W,
        session: SessionNo,
        key: KeyNo,
        value: Value,
    ) -> Result<(), Stopped>
        ensures made { MakesStep (step_under (W.ahead weather.old) self.old.state (Event.Write session key value)) self.old self.new result }
        ensures asked { Asks result (asks self.old.state (Event.Write session key value)) (W.ahead weather.old) (W.ahead weather.new)
            (W.faults weather.old) (W.faults weather.new) }
    {
        self.make(
            weather,
            &Event::Write {
                session,
                key,
                value,
            },
        )
    }

    /// The session begins a read of the key: refused as Gone, NoTransaction or Busy, and with strict reads as TooManyKeys.
    /// StoreFault where the cells fail, NoMemory where memory is refused.
    pub fn fetch<W: Weather>(
        &mut self,
        weather: &mut W,
        session: SessionNo,
        key: KeyNo,
    ) -> Result<(), Stopped>
        ensures made { MakesStep (step_under (W.ahead weather.old) self.old.state (Event.Fetch session key)) self.old self.new result }
        ensures asked { Asks result (asks self.old.state (Event.Fetch session key)) (W.ahead weather.old) (W.ahead weather.new)
            (W.faults weather.old) (W.faults weather.new) }
    {
        self.make(weather, &Event::Fetch { session, key })
    }

    /// The session makes the next step of its read, of its own open outcome, or of its completion, or places the record of its
    /// commit: refused as Gone or Idle, and a placing as Invalid where a mark stands in its place. StoreFault where the store of
    /// the step fails, NoMemory where memory is refused.
    pub fn step<W: Weather>(&mut self, weather: &mut W, session: SessionNo) -> Result<(), Stopped>
        ensures made { MakesStep (step_under (W.ahead weather.old) self.old.state (Event.Step session)) self.old self.new result }
        ensures asked { Asks result (asks self.old.state (Event.Step session)) (W.ahead weather.old) (W.ahead weather.new)
            (W.faults weather.old) (W.faults weather.new) }
    {
        self.make(weather, &Event::Step { session })
    }

    /// The session sets the shadow that its last read offered: refused as Gone or Idle. StoreFault where the cells fail, NoMemory
    /// where memory is refused.
    pub fn heal<W: Weather>(&mut self, weather: &mut W, session: SessionNo) -> Result<(), Stopped>
        ensures made { MakesStep (step_under (W.ahead weather.old) self.old.state (Event.Heal session)) self.old self.new result }
        ensures asked { Asks result (asks self.old.state (Event.Heal session)) (W.ahead weather.old) (W.ahead weather.new)
            (W.faults weather.old) (W.faults weather.new) }
    {
        self.make(weather, &Event::Heal { session })
    }

    /// The session ends its transaction without a commit: refused as Gone, NoTransaction or Busy. NoMemory where memory is refused.
    pub fn abort(&mut self, session: SessionNo) -> Result<(), Stopped>
        ensures { MakesStep (stepped self.old.state (Event.Abort session) Works) self.old self.new result }
    {
        self.make(&mut CalmWeather::new(), &Event::Abort { session })
    }

    /// The session is gone for good: refused as Gone. What it left in the stores stays. NoMemory where memory is refused.
    pub fn vanish(&mut self, session: SessionNo) -> Result<(), Stopped>
        ensures { MakesStep (stepped self.old.state (Event.Vanish session) Works) self.old self.new result }
    {
        self.make(&mut CalmWeather::new(), &Event::Vanish { session })
    }

    /// The janitor begins to sweep the transaction, by the epoch of the node's oracle: refused as Busy, or as NoOracle. NoMemory
    /// where memory is refused.
    pub fn sweep_open(&mut self, node: NodeNo, txn: TxnId) -> Result<(), Stopped>
        ensures { MakesStep (stepped self.old.state (Event.SweepOpen node txn) Works) self.old self.new result }
    {
        self.make(&mut CalmWeather::new(), &Event::SweepOpen { node, txn })
    }

    /// The janitor makes the next step of the open sweep: refused as Idle, and as Undecided, which ends the sweep. StoreFault where
    /// the store of the step fails, NoMemory where memory is refused.
    pub fn sweep_step<W: Weather>(&mut self, weather: &mut W) -> Result<(), Stopped>
        ensures made { MakesStep (step_under (W.ahead weather.old) self.old.state Event.SweepStep) self.old self.new result }
        ensures asked { Asks result (asks self.old.state Event.SweepStep) (W.ahead weather.old) (W.ahead weather.new)
            (W.faults weather.old) (W.faults weather.new) }
    {
        self.make(weather, &Event::SweepStep)
    }
}
