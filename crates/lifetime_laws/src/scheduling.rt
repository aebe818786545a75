//! How soon a Ready thread goes on. The definitions stand in `specs/` and the lemmas in `proofs/`; the functions have no code, and their
//! contracts are the theorems.

ghost use Rattle.std.specs.Prelude.{◌≡◌, ℕ, ◌+◌, ◌≤◌, IsTrue, List};
ghost use Rattle.xk_base.specs.declared.events.Event.{Event};
ghost use Rattle.xk_base.specs.declared.ids.ThreadId.{ThreadId};
ghost use Rattle.xk_base.specs.Tables.Circle.{is_thread_id};
ghost use Rattle.machine_laws.specs.History.{history};
ghost use Rattle.machine_laws.specs.HistoryMoments.{moments_of};
ghost use Rattle.machine_model.specs.Runs.Matched.{Matched};
ghost use Rattle.machine_model.specs.State.Machine.{Machine};
ghost use Rattle.transcript_laws.specs.Turns.{IsStarvedBy};
ghost use Rattle.lifetime_laws.specs.Passing.{IsPassedOver, ticks_of_one};
ghost use Rattle.lifetime_laws.specs.Scheduling.{AreStepsFair, AreTicksUpTo, WaitsInLine};

/// **A Ready thread goes on.** If nothing comes but ticks of 1 to `most` steps, at most `most` steps for each other thread id come before
/// the next step of a thread that is Ready all the while. Premises: the timer starts no handler in another thread than the one that
/// steps, and no tick ends with the yield or the retried call that gives the thread its turn.
pub fn steps_are_fair()
    ensures { (events : List Event) (limit most : ℕ) (start : Machine) → Matched start → IsTrue (is_thread_id start.processes start.cursor)
        → AreTicksUpTo most events → AreStepsFair most start (moments_of events limit start) }
{}

/// **Without a yield, turns are kept.** If nothing comes but ticks, and no record is a retry, a call of Yield or the start of a handler,
/// a thread that is Ready meets the premises of `steps_are_fair`.
pub fn quiet_turns_are_kept()
    ensures { (events : List Event) (limit most : ℕ) (start : Machine) → AreTicksUpTo most events
        → WaitsInLine start (moments_of events limit start) }
{}

/// **Retries can starve a thread.** For every number of steps, that many events `tick 1` do them all in one thread whose call is retried,
/// while another is Ready all the while. So a client that sends to a full server can keep the server from making room.
pub fn retries_can_starve()
    ensures others { (n limit : ℕ) (m : Machine) (who other : ThreadId) → IsPassedOver who other m → m.steps + n ≤ limit
        → IsStarvedBy who other m (moments_of (ticks_of_one n) limit m) }
    ensures steps { (n limit : ℕ) (m : Machine) (who other : ThreadId) → IsPassedOver who other m → m.steps + n ≤ limit
        → (history (ticks_of_one n) limit m).machine.steps ≡ m.steps + n }
{}
