//! Laws of the machine's invariant.

ghost use Rattle.std.specs.Prelude.{ℕ, ◌≤◌, List};
ghost use Rattle.machine_model.specs.Runs.Kept.{PickKeepsMatched, TurnKeepsMatched};
ghost use Rattle.machine_model.specs.Runs.Kept.{AllKeepMatched};
ghost use Rattle.machine_model.specs.State.Machine.{Machine};
ghost use Rattle.machine_model.specs.Runs.Moments.{Moment, IsRun, state_at};
ghost use Rattle.machine_model.specs.Runs.Matched.{Matched};
ghost use Rattle.machine_model.specs.Worked.Rows.{small_machine};
ghost use Rattle.machine_model.specs.State.Start.{IsStart};
ghost use Rattle.xk_base.specs.declared.limits.TheConstants.{PROCESS_LIMIT};

/// The end of a turn keeps the machine matched.
pub fn turn_keeps_matched()
    ensures { TurnKeepsMatched }
{}

/// A pick keeps the machine matched.
pub fn pick_keeps_matched()
    ensures { PickKeepsMatched }
{}

/// Then every state of a run from a matched start is matched.
pub fn run_stays_matched()
    ensures { AllKeepMatched → (start : Machine) (moments : List Moment) → Matched start → IsRun start moments
        → (i : ℕ) → Matched (state_at start moments i) }
{}

/// The state in which a run starts is matched.
pub fn start_is_matched()
    ensures { (m : Machine) → IsStart m → Matched m }
{}

/// The small machine from which the worked rows start is matched.
pub fn small_machine_is_matched()
    ensures { (n : ℕ) → n ≤ PROCESS_LIMIT → Matched (small_machine n) }
{}
