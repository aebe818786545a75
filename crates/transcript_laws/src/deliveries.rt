//! What the records tell of messages.

ghost use Rattle.std.specs.Prelude.{ℕ, List};
ghost use Rattle.xk_base.specs.declared.events.Event.{Event};
ghost use Rattle.xk_base.specs.declared.ids.Number.{Number};
ghost use Rattle.machine_laws.specs.HistoryMoments.{moments_of};
ghost use Rattle.machine_model.specs.Runs.Matched.{Matched};
ghost use Rattle.machine_model.specs.Runs.Moments.{IsRun, Moment};
ghost use Rattle.machine_model.specs.State.Machine.{Machine};
ghost use Rattle.transcript_laws.specs.AtServers.{EndsAtItsServer};
ghost use Rattle.transcript_laws.specs.DeliveredOnce.{DeliveredOnce};
ghost use Rattle.transcript_laws.specs.Following.{MessagesFollow};
ghost use Rattle.transcript_laws.specs.NothingLost.{NothingIsLost, StandsOnce};

/// **The records tell of each message.** The records of a run from a matched state lead each message from how it stands at the start to
/// how it stands at the end: an accepted send queues it, a delivery makes it held, or over where it has no answer, a forward queues what
/// is held, a return ends it, and with a server or a process messages may be forgotten. Nothing else moves one.
pub fn messages_follow()
    ensures runs { (start : Machine) (moments : List Moment) → Matched start → IsRun start moments → MessagesFollow start moments }
    ensures histories { (events : List Event) (limit : ℕ) (start : Machine) → Matched start
        → MessagesFollow start (moments_of events limit start) }
{}

/// **Each message is delivered at most once for its send and once for each forward, and ended at most once.** Between two deliveries of a
/// message stands a forward of it that was served. Behind a return that was served, or the delivery of a message without an answer,
/// stands nothing more of it.
pub fn messages_are_delivered_once()
    ensures runs { (start : Machine) (moments : List Moment) → Matched start → IsRun start moments → DeliveredOnce start moments }
    ensures histories { (events : List Event) (limit : ℕ) (start : Machine) → Matched start
        → DeliveredOnce start (moments_of events limit start) }
{}

/// **Nothing is lost.** In each matched state each message stands in exactly one way: its number isn't given yet, it is queued, it is held,
/// or it is over. One that is over in the end, and wasn't at the start, was returned, was delivered and has no answer, or was forgotten
/// with a server or a process whose end stands in the records. Each is at a server in the end, since it was sent or forwarded there, or
/// was over at the start, or ended at the server that had it: a thread of that server's process returned it or received it and it has no
/// answer, the server was destroyed by such a thread or its process died, or the process died whose thread waited for the answer to
/// it, and it was queued.
pub fn nothing_is_lost()
    ensures stands { (m : Machine) (number : Number) → Matched m → StandsOnce number m }
    ensures runs { (start : Machine) (moments : List Moment) → Matched start → IsRun start moments → NothingIsLost start moments }
    ensures histories { (events : List Event) (limit : ℕ) (start : Machine) → Matched start
        → NothingIsLost start (moments_of events limit start) }
    ensures own_runs { (start : Machine) (moments : List Moment) → Matched start → IsRun start moments → EndsAtItsServer start moments }
    ensures own_histories { (events : List Event) (limit : ℕ) (start : Machine) → Matched start
        → EndsAtItsServer start (moments_of events limit start) }
{}
