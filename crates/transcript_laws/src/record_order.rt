//! The order of the records of one step or event, and of the numbers of steps.

ghost use Rattle.std.specs.Prelude.{ℕ, List};
ghost use Rattle.xk_base.specs.declared.events.Event.{Event};
ghost use Rattle.machine_laws.specs.Records.{records_by};
ghost use Rattle.machine_laws.specs.HistoryMoments.{moments_of};
ghost use Rattle.machine_model.specs.Runs.Moments.{Cause, IsRun, Moment};
ghost use Rattle.machine_model.specs.State.Machine.{Machine};
ghost use Rattle.transcript_laws.specs.RecordOrder.{StandInOrder, StepsNeverFall};

/// **A step's records stand in one order.** What the thread does, then its retry, replies by pid and tid, interrupts by pid, the death:
/// each record of a step or an event stands strictly before the later ones. So at most one reply comes to each thread, at most one
/// handler starts in each process, and at most one process dies.
pub fn records_stand_in_order()
    ensures { (cause : Cause) (m : Machine) → StandInOrder (records_by cause m) }
{}

/// **Steps never fall.** In the records of a run, and of a history, the number of a step is never less than one before it.
pub fn steps_never_fall()
    ensures runs { (start : Machine) (moments : List Moment) → IsRun start moments → StepsNeverFall start moments }
    ensures histories { (events : List Event) (limit : ℕ) (start : Machine) → StepsNeverFall start (moments_of events limit start) }
{}
