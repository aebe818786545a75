//! How turns go round.

ghost use Rattle.std.specs.Prelude.{◌≡◌, ℕ, ◌+◌, ◌≤◌, IsTrue, List};
ghost use Rattle.xk_base.specs.declared.events.Event.{Event};
ghost use Rattle.xk_base.specs.Tables.Circle.{is_thread_id};
ghost use Rattle.xk_base.specs.declared.ids.ThreadId.{ThreadId};
ghost use Rattle.machine_laws.specs.History.{history};
ghost use Rattle.machine_laws.specs.HistoryMoments.{moments_of};
ghost use Rattle.machine_model.specs.Runs.Matched.{Matched};
ghost use Rattle.machine_model.specs.Runs.Moments.{IsRun, Moment};
ghost use Rattle.machine_model.specs.State.Machine.{Machine};
ghost use Rattle.transcript_laws.specs.Turns.{AreTurnsFair, IsAtRisk, IsStarvedBy, picks_of};

/// **Turns are fair.** While no pick and no interrupt's handler takes a turn out of the order, each thread that is Ready all the while
/// has a turn between two turns of any other thread, and does a step in it unless a tick ends there.
pub fn turns_are_fair()
    ensures runs { (start : Machine) (moments : List Moment) → Matched start → IsTrue (is_thread_id start.processes start.cursor)
        → IsRun start moments → AreTurnsFair start moments }
    ensures histories { (events : List Event) (limit : ℕ) (start : Machine) → Matched start
        → IsTrue (is_thread_id start.processes start.cursor) → AreTurnsFair start (moments_of events limit start) }
{}

/// **Picks can starve a thread.** For every number of steps there is a list of events, picks of one thread that jumps to itself and ticks,
/// by which just these steps are done, all of them that thread's, while another is Ready all the while.
pub fn picks_can_starve()
    ensures others { (n limit : ℕ) (m : Machine) (who other : ThreadId) → IsAtRisk who other m → m.steps + n ≤ limit
        → IsStarvedBy who other m (moments_of (picks_of who n) limit m) }
    ensures steps { (n limit : ℕ) (m : Machine) (who other : ThreadId) → IsAtRisk who other m → m.steps + n ≤ limit
        → (history (picks_of who n) limit m).machine.steps ≡ m.steps + n }
{}
