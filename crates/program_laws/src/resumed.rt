//! A run that was suspended goes on as if it had not been. The functions do nothing; their contracts are the laws.

ghost use Rattle.std.specs.Prelude.{◌≡◌, ◌<◌, ◌≤◌, ◌++◌, ℕ, All, IfSome, List, Option};
ghost use Rattle.xk_base.specs.declared.events.Event.{Event};
ghost use Rattle.machine_model.specs.Runs.Matched.{Matched};
ghost use Rattle.machine_model.specs.State.Machine.{Machine};
ghost use Rattle.snapshot_rows.specs.declared.state.State.{State};
ghost use Rattle.snapshot_rows.specs.Machines.{machine_of};
ghost use Rattle.suspend_image.specs.Saveable.{IsSaveable};
ghost use Rattle.suspend_image.specs.StateBytes.{saved_bytes};
ghost use Rattle.machine_laws.specs.History.{history};
ghost use Rattle.resume_path.specs.Resumable.{IsResumable};
ghost use Rattle.program_laws.specs.Starting.{Begins};
ghost use Rattle.xk_base.specs.declared.limits.TheConstants.{SLOT_LIMIT, STEP_LIMIT};
ghost use Rattle.xous_program.specs.Outcome.Images.{Boots};
ghost use Rattle.xous_program.specs.Outcome.Resumes.{limit_from};
ghost use Rattle.program_laws.specs.Resumed.{IsCut, IsJoined};
ghost use Rattle.xous_program.specs.StateFiles.{Restores};
ghost use Rattle.xous_program.specs.Headline.{SuspendingIsInvisible};

/// A state is read of the bytes of each state to which events lead, and it is that one. The numbers of
/// the state fit into words, as they do in each state that a kernel holds: of every state that `suspend`
/// writes the top call says so.
#[tactic(auto, using(crate::proofs::ResumedLemmas::suspended_is_read, crate::proofs::ResumedLemmas::suspended_is_resumed))]
pub fn suspended_state_is_read()
    ensures read { (before : List Event) (limit : ℕ) (start : Machine) → Matched start → let last = (history before limit start).machine in
        IsSaveable last → (state : State) × IsResumable (saved_bytes last) state }
    ensures same { (before : List Event) (limit : ℕ) (start : Machine) (file : List ℕ) (state : State) → Matched start
        → let last = (history before limit start).machine in
        IsSaveable last → IsCut before limit start file state → machine_of file state ≡ last }
{}

/// Where the events before don't meet the limit, the history of all events is theirs, followed by that of
/// the events after from the state that is read of the saved bytes. The limit stays, as no step goes
/// beyond it.
#[tactic(auto, using(crate::proofs::ResumedLemmas::resumed_limit))]
pub fn resumed_run_goes_on()
    ensures goes_on { (before after : List Event) (limit : ℕ) (start : Machine) (file : List ℕ) (state : State) → Matched start
        → IsSaveable (history before limit start).machine → IsCut before limit start file state
        → IsJoined (history (before ++ after) limit start) (history before limit start) (history after limit (machine_of file state)) }
    ensures limit { (before : List Event) (limit : ℕ) (start : Machine) (file : List ℕ) (state : State)
        → Matched start → start.steps ≤ limit → IsSaveable (history before limit start).machine
        → IsCut before limit start file state → limit_from limit (machine_of file state) ≡ limit }
{}

/// A machine that an image of bytes boots, or that a state file of bytes restores, begins so that each state of its histories up to
/// 4,000,000,000 steps can be written as state bytes (`every_state_is_spellable` of `program_laws`).
pub fn runs_begin()
    ensures booted { (image : List ℕ) (asked : Option ℕ) (machine : Machine) → IfSome asked (λ n. n ≤ SLOT_LIMIT)
        → All (λ b. b < 256) image → Boots image asked machine → Begins machine }
    ensures restored { (file : List ℕ) (slots : ℕ) (machine : Machine) → All (λ b. b < 256) file
        → Restores file slots machine → Begins machine }
{}

/// So such a run that is suspended goes on as if it had not been, up to a limit of 4,000,000,000 steps at most: a state is read of the
/// bytes of the state to which events lead, it is that one, and the limit stays. Nothing is asked of the numbers of any state.
pub fn begun_run_goes_on()
    ensures read { (before : List Event) (limit : ℕ) (start : Machine) → Begins start → start.steps ≤ limit → limit ≤ STEP_LIMIT
        → let last = (history before limit start).machine in (state : State) × IsResumable (saved_bytes last) state }
    ensures goes_on { (before after : List Event) (limit : ℕ) (start : Machine) (file : List ℕ) (state : State) → Begins start
        → start.steps ≤ limit → limit ≤ STEP_LIMIT → IsCut before limit start file state
        → IsJoined (history (before ++ after) limit start) (history before limit start) (history after limit (machine_of file state)) }
    ensures limit { (before : List Event) (limit : ℕ) (start : Machine) (file : List ℕ) (state : State) → Begins start
        → start.steps ≤ limit → limit ≤ STEP_LIMIT → IsCut before limit start file state
        → limit_from limit (machine_of file state) ≡ limit }
{}

/// A call of `suspend` that ends Done writes a file that isn't too long for a state file, and a complete call of `resume` that plays later
/// events on it, with the slots of the run and up to the same step limit, ends as one complete call of `trace` does that plays all events:
/// with its status, in which lines are counted on. `trace` writes what is told of the events before, and then what `resume` wrote.
pub fn suspended_calls_end_as_one()
    ensures { SuspendingIsInvisible }
{}
