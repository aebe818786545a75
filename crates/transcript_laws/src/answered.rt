//! Calls and their replies over a run.

ghost use Rattle.std.specs.Prelude.{ℕ, List};
ghost use Rattle.xk_base.specs.declared.events.Event.{Event};
ghost use Rattle.machine_laws.specs.HistoryMoments.{moments_of};
ghost use Rattle.machine_model.specs.Runs.Matched.{Matched};
ghost use Rattle.machine_model.specs.Runs.Moments.{IsRun, Moment};
ghost use Rattle.machine_model.specs.State.Machine.{Machine};
ghost use Rattle.transcript_laws.specs.AnsweredOnce.{AnsweredOnce, StandingsFollow};

/// **Each call is answered once.** Of the records of a run from a matched state: between two calls of one thread, with no call of it
/// between them, stands exactly one reply to it or retry. Behind its last call stands one, or none; where none does, the thread waits in
/// the last state, or its process is dead. Before its first call stands none, but where the thread waited at the start.
pub fn calls_are_answered_once()
    ensures runs { (start : Machine) (moments : List Moment) → Matched start → IsRun start moments → AnsweredOnce start moments }
    ensures histories { (events : List Event) (limit : ℕ) (start : Machine) → Matched start
        → AnsweredOnce start (moments_of events limit start) }
{}

/// **Who waits is told.** The records of a run from a matched state lead each thread from how it stands at the start to how it stands at
/// the end: a call of it makes it wait, a reply or a retry frees it, and its other records are of a thread that waits for none, so a
/// handler takes the registers of no thread that waits. The death of its process ends all.
pub fn standings_follow()
    ensures runs { (start : Machine) (moments : List Moment) → Matched start → IsRun start moments → StandingsFollow start moments }
    ensures histories { (events : List Event) (limit : ℕ) (start : Machine) → Matched start
        → StandingsFollow start (moments_of events limit start) }
{}
