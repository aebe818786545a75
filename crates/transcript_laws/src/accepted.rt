//! Which sends the message numbers are of.

ghost use Rattle.std.specs.Prelude.{ℕ, List};
ghost use Rattle.xk_base.specs.declared.events.Event.{Event};
ghost use Rattle.machine_laws.specs.HistoryMoments.{moments_of};
ghost use Rattle.machine_model.specs.Runs.Moments.{IsRun, Moment};
ghost use Rattle.machine_model.specs.State.Machine.{Machine};
ghost use Rattle.transcript_laws.specs.Accepting.{AcceptedOnce};

/// **Each message is accepted once.** Each message number that a run gives is that of exactly one send that is served, and such sends
/// get ascending numbers. Nothing else takes a number: a forward, a refused send and one that is to be made again take none.
pub fn messages_are_accepted_once()
    ensures runs { (start : Machine) (moments : List Moment) → IsRun start moments → AcceptedOnce start moments }
    ensures histories { (events : List Event) (limit : ℕ) (start : Machine) → AcceptedOnce start (moments_of events limit start) }
{}
