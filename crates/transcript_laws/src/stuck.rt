//! What is so where no thread can do a step.

ghost use Rattle.std.specs.Prelude.{◌≡◌, ℕ, ◌≤◌, true, IsTrue, List, ◌++◌};
ghost use Rattle.std.specs.List.{list_all};
ghost use Rattle.xk_base.specs.declared.events.Event.{Event};
ghost use Rattle.xk_base.specs.Tables.Circle.{is_thread_id};
ghost use Rattle.machine_laws.specs.History.{history, reached};
ghost use Rattle.machine_model.specs.Runs.Matched.{Matched};
ghost use Rattle.machine_model.specs.State.Machine.{Machine};
ghost use Rattle.machine_model.specs.Stepping.Events.{nothing};
ghost use Rattle.transcript_laws.specs.Stuck.{DoesNoStep, EveryoneWaits, IsStuck, is_from_inside};

/// **Stuck is exactly that.** A tick does no step, and not for the limit, exactly where no thread is Ready. Then each thread waits: for a
/// message, an answer, the end of a thread or an interrupt. Without an interrupt or a kill nothing ever changes, and nothing is told.
pub fn stuck_is_exactly_that()
    ensures nobody { (n limit : ℕ) (m : Machine) → Matched m → IsTrue (is_thread_id m.processes m.cursor) → 1 ≤ n
        → DoesNoStep n limit m → IsStuck m }
    ensures no_step { (n limit : ℕ) (m : Machine) → IsStuck m → DoesNoStep n limit m }
    ensures waits { (m : Machine) → Matched m → IsStuck m → EveryoneWaits m }
    ensures still { (events : List Event) (limit : ℕ) (m : Machine) → IsStuck m → list_all is_from_inside events ≡ true
        → history events limit m ≡ reached (nothing m) }
    ensures histories { (before later : List Event) (limit : ℕ) (start : Machine) → IsStuck (history before limit start).machine
        → list_all is_from_inside later ≡ true → history (before ++ later) limit start ≡ history before limit start }
{}
