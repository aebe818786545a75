//! Laws of the moments that a history goes through. Whatever holds of each run holds so of each history.

ghost use Rattle.std.specs.Prelude.{ℕ, ◌≡◌, List, [], ◌++◌, length, if◌then◌else◌, IsTrue};
ghost use Rattle.xk_base.specs.declared.events.Event.{Event};
ghost use Rattle.xk_base.specs.Tables.Circle.{is_thread_id};
ghost use Rattle.machine_model.specs.State.Machine.{Machine};
ghost use Rattle.machine_model.specs.Runs.Matched.{Matched};
ghost use Rattle.machine_model.specs.Runs.Moments.{IsRun, state_at};
ghost use Rattle.machine_laws.specs.History.{history};
ghost use Rattle.machine_laws.specs.HistoryMoments.{moments_of};
ghost use Rattle.machine_laws.specs.Records.{records_of};

/// The moments of a history are a run from its start.
#[tactic(auto, using(crate::proofs::Histories::MomentLemmas::history_is_run))]
pub fn history_is_a_run()
    ensures { (events : List Event) (limit : ℕ) (start : Machine) → IsRun start (moments_of events limit start) }
{}

/// The run ends in the history's last state.
#[tactic(auto, using(crate::proofs::Histories::MomentLemmas::history_last))]
pub fn run_ends_in_the_last_state()
    ensures { (events : List Event) (limit : ℕ) (start : Machine)
        → state_at start (moments_of events limit start) (length (moments_of events limit start)) ≡ (history events limit start).machine }
{}

/// The moments of two lists of events are those of the first, and then, where it doesn't meet the limit, those of the second.
#[tactic(auto, using(crate::proofs::Histories::MomentLemmas::moments_append))]
pub fn moments_follow_each_other()
    ensures { (before after : List Event) (limit : ℕ) (m : Machine)
        → moments_of (before ++ after) limit m
        ≡ moments_of before limit m
        ++ (if (history before limit m).met then [] else moments_of after limit (history before limit m).machine) }
{}

/// Where the cursor of a matched start is the id of a thread of the processes, it is so at every moment of a history.
pub fn moments_keep_the_cursor()
    ensures { (events : List Event) (limit : ℕ) (start : Machine) → Matched start
        → IsTrue (is_thread_id start.processes start.cursor) → (i : ℕ)
        → IsTrue (is_thread_id (state_at start (moments_of events limit start) i).processes
        (state_at start (moments_of events limit start) i).cursor) }
{}

/// The records of a history are those of its moments, in their order.
pub fn records_are_of_the_moments()
    ensures { (events : List Event) (limit : ℕ) (start : Machine)
        → (history events limit start).records ≡ records_of start (moments_of events limit start) }
{}
