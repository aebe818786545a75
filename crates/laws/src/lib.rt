//! What is proved of the machine, for its readers: the contract of each function is a theorem, and its body is empty. They can be read
//! from top to bottom: of every state, of the order of threads, of one loan, of what is not known, of two histories, of the timer, of
//! interrupts, of the reservation. `runs` is said of every list of steps, events and ends of turns, `histories` of what a list of
//! events makes of a machine up to its step limit. That a suspended run goes on as the run that was not suspended speaks of the bytes
//! of a state too, so it stands in `program_laws` (`resumed_run_goes_on`).
#![tactic(auto)]

ghost use Rattle.std.specs.Prelude.{◌≡◌, ℕ, ◌+◌, ◌<◌, ◌≤◌, ◌⊎◌, true, false, is_some, List, ◌∷◌, ◌++◌, length, slice_get, Some, None};
ghost use Rattle.xk_base.specs.declared.events.Event.{Event};
ghost use Rattle.xk_base.specs.declared.ids.Number.{Number};
ghost use Rattle.xk_base.specs.declared.ids.ThreadId.{ThreadId};
ghost use Rattle.xk_base.specs.Tables.Circle.{is_pid, is_thread_id, steps_to};
ghost use Rattle.machine_model.specs.Runs.Isolation.{CallChangesNoByte, InstructionStoresOnePage, StepIsIsolated};
ghost use Rattle.machine_model.specs.Runs.LoanSpan.{LoanSpan, SpansHold};
ghost use Rattle.machine_model.specs.Runs.Matched.{Matched};
ghost use Rattle.machine_model.specs.Runs.Moments.{IsRun, Moment, state_at};
ghost use Rattle.machine_model.specs.Runs.Reserving.{IsSucceeding, ReservationHolds};
ghost use Rattle.machine_model.specs.State.Machine.{Machine, Reservation};
ghost use Rattle.machine_model.specs.State.Order.{actor, next_ready, ready_at};
ghost use Rattle.machine_model.specs.State.Start.{IsStart};
ghost use Rattle.machine_model.specs.Stepping.Events.{picked};
ghost use Rattle.confidentiality_laws.specs.Differences.{DifferencesComeFromTheStart, OnlyMovesDifferences};
ghost use Rattle.confidentiality_laws.specs.EmptyPlaces.{CallMovesToEmptyPlaces};
ghost use Rattle.confidentiality_laws.specs.TwoRuns.{RunsAreSameButBytes, RunsTellTheSame};
ghost use Rattle.interrupt_laws.specs.Raising.{RaiseFindsClaim};
ghost use Rattle.interrupt_laws.specs.TimerLaw.{ArmingsAreMoments, TimerHolds, TimerLaw};
ghost use Rattle.interrupt_laws.specs.Balance.{NoInterruptIsLost};
ghost use Rattle.interrupt_laws.specs.Busy.{PendingStaysBusy, StartsBusy};
ghost use Rattle.interrupt_laws.specs.Delivering.{DeliveredAtMostOnce, PendingAreClaimed, deliveries, once_if, raises};
ghost use Rattle.interrupt_laws.specs.Starting.{IrqStartsIfFree, IrqStartsOneOrNothing};
ghost use Rattle.machine_laws.specs.History.{behind, history, reached, stopped};
ghost use Rattle.machine_laws.specs.HistoryMoments.{moments_of};
ghost use Rattle.machine_laws.specs.Interleaving.{AreReadyInTurn, picks_and_ticks, steps_in_turn};
ghost use Rattle.machine_laws.specs.Reserved.{IsReservedByThread};
ghost use Rattle.confidentiality_laws.specs.TwoHistories.{StartSideBySide, TellTheSame};
ghost use Rattle.laws.specs.Interrupts.{HistoriesAreBalanced, IdleAtTheEnd, IdleSinceBoot, IdleSinceBusy};
ghost use Rattle.laws.specs.LoadedWord.{EveryScFindsItsWord, HadLoaded, HasLoaded};
ghost use Rattle.laws.specs.Spinning.{JumpSpins, SomeIsAtRisk};
ghost use Rattle.laws.specs.Standing.{EveryReservationHolds, IsReservedBefore};
ghost use Rattle.laws.specs.TimerSteps.{TimerComesLast};

/// **Every state is matched.** The state in which a machine starts has the invariant, and so has every state of every run and of every
/// history from a state that has it, the last one too: so of a history that goes on from there, too.
pub fn every_state_stays_matched()
    ensures start { (m : Machine) → IsStart m → Matched m }
    ensures runs { (start : Machine) (moments : List Moment) → Matched start → IsRun start moments → (i : ℕ)
        → Matched (state_at start moments i) }
    ensures histories { (events : List Event) (limit : ℕ) (start : Machine) → Matched start → (i : ℕ)
        → Matched (state_at start (moments_of events limit start) i) }
    ensures last { (events : List Event) (limit : ℕ) (start : Machine) → Matched start → Matched (history events limit start).machine }
{}

/// **The next thread.** The next ready thread after `c` is Ready, and no thread between the two in the circle of ids is. There is none
/// only where no thread is Ready. There is who does the next step exactly where one is.
pub fn next_thread_is_the_first_ready()
    ensures ready { (m : Machine) (c d : ThreadId) → next_ready m c ≡ Some d → ready_at m d ≡ true }
    ensures first { (m : Machine) (c d between : ThreadId) → is_pid m.processes c.pid.0 ≡ true → next_ready m c ≡ Some d
        → is_thread_id m.processes between ≡ true → steps_to m.processes c between < steps_to m.processes c d
        → ready_at m between ≡ false }
    ensures none { (m : Machine) (c d : ThreadId) → is_pid m.processes c.pid.0 ≡ true → next_ready m c ≡ None
        → is_thread_id m.processes d ≡ true → ready_at m d ≡ false }
    ensures does { (m : Machine) (d : ThreadId) → is_pid m.processes m.cursor.pid.0 ≡ true → is_thread_id m.processes d ≡ true
        → ready_at m d ≡ true → is_some (actor m) ≡ true }
    ensures only { (m : Machine) → is_some (actor m) ≡ true → (d : ThreadId) × (ready_at m d ≡ true) }
{}

/// **Every interleaving is played.** For threads that are each Ready at their turn, `pick` and `tick 1` for each of them do their steps
/// in that order, where the limit isn't met; it isn't met where it allows as many steps; and where it allows the first of them alone,
/// these are done in that order, and it is met where the next one was picked.
pub fn every_interleaving_is_played()
    ensures played { (threads : List ThreadId) (limit : ℕ) (m : Machine) → AreReadyInTurn threads m
        → (history (picks_and_ticks threads) limit m).met ≡ false
        → history (picks_and_ticks threads) limit m ≡ reached (steps_in_turn threads m) }
    ensures within { (threads : List ThreadId) (limit : ℕ) (m : Machine) → AreReadyInTurn threads m
        → m.steps + length threads ≤ limit → (history (picks_and_ticks threads) limit m).met ≡ false }
    ensures met { (before : List ThreadId) (who : ThreadId) (later : List ThreadId) (limit : ℕ) (m : Machine)
        → AreReadyInTurn (before ++ (who ∷ later)) m → m.steps + length before ≡ limit
        → history (picks_and_ticks (before ++ (who ∷ later))) limit m
        ≡ behind (steps_in_turn before m).records (stopped (picked who (steps_in_turn before m).machine).machine) }
{}

/// **Each loan has its span.** The loan of a number opens with a lend by its lender, is one stretch of the run, keeps its kind, its
/// pages and their rights, goes to another holder only where its holder forwards it, changes bytes only under Exclusive and by its
/// holder, closes as is said there, and gives its pages back to a lender who lives.
pub fn each_loan_has_its_span()
    ensures runs { SpansHold }
    ensures histories { (events : List Event) (limit : ℕ) (start : Machine) (number : Number) → Matched start
        → LoanSpan start (moments_of events limit start) number }
{}

/// **A step doesn't know what it can't load.** Its records, and its next state but for the bytes of pages, are the same from two states
/// that differ only in bytes that the process of its thread can't load.
pub fn step_is_blind_to_what_it_cannot_load()
    ensures { StepIsIsolated }
{}

/// **Who changes bytes.** A system call changes no byte of any page: pages are made as zeros where none was, moved with their bytes to
/// where none was, or go, and no two come from one. Where a page stood, that page stands afterwards, or none. An instruction changes at
/// most the bytes of one page, at a place where its process may store.
pub fn calls_change_no_byte()
    ensures calls { CallChangesNoByte }
    ensures places { CallMovesToEmptyPlaces }
    ensures instructions { InstructionStoresOnePage }
{}

/// **Two histories side by side.** From two states that differ only in bytes of pages, and by the same events, the same is told, the
/// limit is met alike, and the last states are the same but for bytes, as long as no process does a step that can load a page which
/// differs then; and what differs then differed at the start.
pub fn two_histories_tell_the_same()
    ensures runs { RunsTellTheSame }
    ensures states { RunsAreSameButBytes }
    ensures histories { (events : List Event) (limit : ℕ) (m n : Machine) → StartSideBySide events limit m n
        → TellTheSame (history events limit m) (history events limit n) }
    ensures differences { DifferencesComeFromTheStart }
    ensures moved { (events : List Event) (limit : ℕ) (m n : Machine) → StartSideBySide events limit m n → Matched m → (i : ℕ)
        → OnlyMovesDifferences m.ledger n.ledger (state_at m (moments_of events limit m) i).ledger
        (state_at n (moments_of events limit n) i).ledger }
{}

/// **The timer.** Each arming raises at most once, only in the step whose number is the compare value, and there exactly where nothing
/// touches the timer in between. A start in which the timer is armed, as that of a run that goes on after a suspend can be, counts as
/// an arming before the first moment; where it isn't, each arming is that of a moment. Each raise finds the interrupt claimed.
pub fn timer_raises_at_its_step()
    ensures runs { TimerHolds }
    ensures unarmed { ArmingsAreMoments }
    ensures histories { (events : List Event) (limit : ℕ) (start : Machine) → TimerLaw start (moments_of events limit start) }
    ensures claimed { RaiseFindsClaim }
{}

/// **The timer comes last.** A step in which the timer is due is its other effects, and then the event of the timer's interrupt. Any other
/// step is its other effects alone.
pub fn timer_comes_last()
    ensures { TimerComesLast }
{}

/// **Interrupts are delivered once.** No number is delivered more often than it is raised, and what is pending at the end is a raise
/// that isn't delivered. What is pending is claimed. An event `irq` starts one handler, to whose thread the cursor goes, or leaves the
/// cursor and all threads.
pub fn interrupts_are_delivered_once()
    ensures runs { DeliveredAtMostOnce }
    ensures histories { (k : ℕ) (events : List Event) (limit : ℕ) (start : Machine)
        → deliveries k (history events limit start).records + once_if ((history events limit start).machine.pending k)
        ≤ raises k start (moments_of events limit start) + once_if (start.pending k) }
    ensures claimed { PendingAreClaimed }
    ensures starts { IrqStartsOneOrNothing }
{}

/// **No interrupt is lost.** What was pending at the start and each raise since is delivered, merges with one that is pending, is given
/// up as the claim ends, or is pending at the end. An event `irq` of a claimed number starts a handler of the process that claimed it if
/// its interrupt thread is Idle.
pub fn no_interrupt_is_lost()
    ensures runs { NoInterruptIsLost }
    ensures histories { HistoriesAreBalanced }
    ensures free { IrqStartsIfFree }
{}

/// **Idle means nothing pending.** From the start of a machine on, an interrupt thread that waits for an interrupt has no pending number
/// of its process. It stays so from every matched state in which it is so.
pub fn idle_means_nothing_pending()
    ensures start { StartsBusy }
    ensures runs { PendingStaysBusy }
    ensures histories { IdleSinceBusy }
    ensures boot { IdleSinceBoot }
    ensures last { IdleAtTheEnd }
{}

/// **The reservation.** Between an LR and the SC that succeeds on it, only that thread did steps. A start that has a reservation, as that
/// of a run that goes on after a suspend can, counts as its LR; in a run from a state without one there is an LR. The reservation is
/// that of an id which a thread can have.
pub fn reservation_is_of_one_thread()
    ensures runs { EveryReservationHolds }
    ensures unreserved { ReservationHolds }
    ensures histories { (events : List Event) (limit : ℕ) (start : Machine) (i : ℕ) (moment : Moment) (r : Reservation)
        → slice_get (moments_of events limit start) i ≡ Some moment
        → IsSucceeding r (state_at start (moments_of events limit start) i) moment.cause
        → IsReservedBefore r start (moments_of events limit start) i }
    ensures last { (events : List Event) (limit : ℕ) (start : Machine) → Matched start → IsReservedByThread start
        → IsReservedByThread (history events limit start).machine }
{}

/// **SC finds the word that LR loaded.** From the LR to the SC that succeeds on it the reservation stands, and memory changes only by
/// stores of that thread. So the word is the one that the LR found, if the thread stores nothing in between. A start that has the
/// reservation counts as the LR.
pub fn sc_finds_the_loaded_word()
    ensures runs { EveryScFindsItsWord }
    ensures histories { (events : List Event) (limit : ℕ) (start : Machine) (i : ℕ) (moment : Moment) (r : Reservation)
        → slice_get (moments_of events limit start) i ≡ Some moment
        → IsSucceeding r (state_at start (moments_of events limit start) i) moment.cause
        → HasLoaded r start (moments_of events limit start) i ⊎ HadLoaded r start (moments_of events limit start) i }
{}

/// **A jump to itself spins.** A Ready thread whose next instruction is `jal x0, 0` stays as it is by each of its steps, so picks can starve
/// all others (`picks_can_starve` of `transcript_laws`). Some machine has such a thread, and another thread that is Ready.
pub fn a_jump_to_itself_spins()
    ensures spins { JumpSpins }
    ensures witness { SomeIsAtRisk }
{}
