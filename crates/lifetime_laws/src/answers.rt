//! How soon a served client is answered. The definitions stand in `specs/` and the lemmas in `proofs/`; the function has no code, and its
//! contract is the theorem.

ghost use Rattle.std.specs.Prelude.{ℕ, IsTrue, List};
ghost use Rattle.xk_base.specs.declared.events.Event.{Event};
ghost use Rattle.xk_base.specs.Tables.Circle.{is_thread_id};
ghost use Rattle.machine_laws.specs.HistoryMoments.{moments_of};
ghost use Rattle.machine_model.specs.Runs.Matched.{Matched};
ghost use Rattle.machine_model.specs.State.Machine.{Machine};
ghost use Rattle.lifetime_laws.specs.Prompt.{IsAnsweredInTime, LeavesInTime, TravelsInTime};
ghost use Rattle.lifetime_laws.specs.Scheduling.{AreTicksUpTo};

/// **A served client is answered.** Let nothing come but ticks of 1 to `most` steps, and a server be prompt: within `pace` own steps its
/// receiver takes the oldest queued message and a holder gives up what it holds, both Ready while there is such work, and both get their
/// turns. A message leaves the server by its deadline, which counts the messages before it. So by then its sender has its reply, or its
/// process is dead, unless the message is forwarded. With forwards between prompt servers the message is over within a bound by their number.
pub fn served_clients_are_answered()
    ensures messages { (events : List Event) (limit most : ℕ) (start : Machine) → Matched start
        → IsTrue (is_thread_id start.processes start.cursor) → AreTicksUpTo most events
        → LeavesInTime most start (moments_of events limit start) }
    ensures senders { (events : List Event) (limit most : ℕ) (start : Machine) → Matched start
        → IsTrue (is_thread_id start.processes start.cursor) → AreTicksUpTo most events
        → IsAnsweredInTime most start (moments_of events limit start) }
    ensures forwards { (events : List Event) (limit most : ℕ) (start : Machine) → Matched start
        → IsTrue (is_thread_id start.processes start.cursor) → AreTicksUpTo most events
        → TravelsInTime most start (moments_of events limit start) }
{}
