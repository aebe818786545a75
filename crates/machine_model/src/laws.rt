//! Laws of the abstract machine. Each function's contract is the law, and its body is empty.

ghost use Rattle.std.specs.Prelude.{ℕ, ◌≡◌, ◌+◌, ◌<◌, ◌≤◌, ◌⊎◌, true, false, List, length, Some, None, [], All};
ghost use Rattle.xk_base.specs.Calls.Registers.{reg_at, arguments_of, with_arguments};
ghost use Rattle.xk_base.specs.declared.errors.XousError.{XousError};
ghost use Rattle.xk_base.specs.declared.ids.ThreadId.{ThreadId};
ghost use Rattle.xk_base.specs.Tables.Circle.{is_pid, is_thread_id};
ghost use Rattle.machine_model.specs.State.Changes.{Refused, Told, call_settled, with_refusal};
ghost use Rattle.machine_model.specs.State.Machine.{Machine, Thread};
ghost use Rattle.machine_model.specs.Hart.Instructions.{following};
ghost use Rattle.machine_model.specs.State.Order.{ready_at, next_ready, actor};
ghost use Rattle.machine_model.specs.Stepping.Step.{step};
ghost use Rattle.machine_model.specs.Stepping.Timer.{is_due, timed};
ghost use Rattle.machine_model.specs.State.Threads.{change_thread};

/// The next ready thread is Ready.
#[tactic(auto, using(crate::proofs::StepLemmas::next_ready_passes))]
pub fn next_ready_is_ready()
    ensures { (m : Machine) (c d : ThreadId) → next_ready m c ≡ Some d → ready_at m d ≡ true }
{}

/// Where there is no next ready thread, no thread is Ready.
#[tactic(auto, using(crate::proofs::StepLemmas::none_is_ready))]
pub fn none_ready_without_next()
    ensures { (m : Machine) (c d : ThreadId) → is_pid m.processes c.pid.0 ≡ true → next_ready m c ≡ None → is_thread_id m.processes d ≡ true
        → ready_at m d ≡ false }
{}

/// A step counts one.
#[tactic(auto, using(crate::proofs::StepLemmas::one_step))]
pub fn step_counts_one()
    ensures { (m : Machine) (who : ThreadId) → actor m ≡ Some who → (step m).machine.steps ≡ m.steps + 1 }
{}

/// Where no thread is Ready there is no step.
#[tactic(auto, using(crate::proofs::StepLemmas::no_step))]
pub fn no_step_without_actor()
    ensures { (m : Machine) → actor m ≡ None → step m ≡ record { machine = m; records = [] } }
{}

/// Every record of a step carries its number.
#[tactic(auto, using(crate::proofs::StepLemmas::records_of_step))]
pub fn records_carry_their_step()
    ensures { (m : Machine) → All (λ r. r.step ≡ m.steps + 1) (step m).records }
{}

/// A refusal changes the caller alone.
#[tactic(auto, using(crate::proofs::StepLemmas::refusal_settled))]
pub fn refusal_changes_caller_alone()
    ensures { (m : Machine) (error : XousError) → (call_settled m (Refused error)).machine ≡ change_thread m.cursor (with_refusal error) m }
{}

/// A refused caller is past its call and keeps its state.
#[tactic(auto, using(crate::proofs::StepLemmas::refusal_passes))]
pub fn refused_caller_goes_on()
    ensures { (t : Thread) (error : XousError) → ((with_refusal error t).pc ≡ following t.pc) × ((with_refusal error t).state ≡ t.state) }
{}

/// Eight words in a0 to a7 are what stands there.
#[tactic(auto, using(crate::proofs::Calling::ArgumentLemmas::arguments_given))]
pub fn arguments_are_given()
    ensures { (words regs : List ℕ) → length words ≡ 8 → length regs ≡ 32 → arguments_of (with_arguments words regs) ≡ words }
{}

/// Eight words in a0 to a7 leave every other register as it was.
#[tactic(auto, using(crate::proofs::Calling::ArgumentLemmas::others_stay))]
pub fn other_registers_stay()
    ensures { (words regs : List ℕ) (r : ℕ) → length words ≡ 8 → length regs ≡ 32 → (r < 10) ⊎ (18 ≤ r)
        → reg_at (with_arguments words regs) r ≡ reg_at regs r }
{}

/// The timer raises only where its compare value is the number of steps done, and is disarmed as it
/// does; so an arming raises at most once.
#[tactic(auto, using(crate::proofs::Runs::TimerLemmas::due_disarms, crate::proofs::Runs::TimerLemmas::not_due))]
pub fn timer_raises_once()
    ensures due { (done : Told) → is_due done.machine.compare done.machine.steps ≡ true → (timed done).machine.compare ≡ None }
    ensures not_due { (done : Told) → is_due done.machine.compare done.machine.steps ≡ false → timed done ≡ done }
{}
