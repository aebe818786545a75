//! Laws of one event and of events in order.

ghost use Rattle.std.specs.Prelude.{ℕ, ◌≡◌, ◌≢◌, ◌-◌, ◌≤◌, true, false, is_some, List, [], ◌∷◌, ◌++◌};
ghost use Rattle.xk_base.specs.declared.events.Event.{Event};
ghost use Rattle.xk_base.specs.declared.events.Event.TheVariants.{Tick, Pick, Irq, Kill};
ghost use Rattle.xk_base.specs.declared.ids.Pid.{Pid};
ghost use Rattle.xk_base.specs.declared.ids.Tid.{Tid};
ghost use Rattle.xk_base.specs.declared.records.Rec.{Rec};
ghost use Rattle.machine_model.specs.Stepping.Events.{picked, raised, killed, nothing};
ghost use Rattle.machine_model.specs.State.Machine.{Machine};
ghost use Rattle.machine_model.specs.State.Order.{actor, ready_at, turn};
ghost use Rattle.machine_model.specs.Stepping.Step.{step};
ghost use Rattle.machine_laws.specs.History.{play, history, reached, stopped, behind, followed_by};

/// `pick P T`, `irq K` and `kill P` are what the machine makes of them. They meet no limit.
#[tactic(auto, using(crate::proofs::Histories::HistoryLemmas::stepless_plays))]
pub fn events_without_steps_are_played()
    ensures pick { (pid : Pid) (tid : Tid) (limit : ℕ) (m : Machine)
        → play (Pick pid tid) limit m ≡ reached (picked (record { pid = pid; tid = tid }) m) }
    ensures irq { (k limit : ℕ) (m : Machine) → play (Irq k) limit m ≡ reached (raised k m) }
    ensures kill { (pid : Pid) (limit : ℕ) (m : Machine) → play (Kill pid) limit m ≡ reached (killed pid m) }
{}

/// `pick` of a thread that isn't Ready does nothing.
#[tactic(auto, using(crate::proofs::Histories::HistoryLemmas::pick_unready))]
pub fn unready_thread_is_not_picked()
    ensures { (pid : Pid) (tid : Tid) (limit : ℕ) (m : Machine) → ready_at m (record { pid = pid; tid = tid }) ≡ false
        → play (Pick pid tid) limit m ≡ reached (nothing m) }
{}

/// `tick 0` ends the turn.
#[tactic(auto, using(crate::proofs::Histories::HistoryLemmas::tick_zero))]
pub fn tick_zero_ends_the_turn()
    ensures { (limit : ℕ) (m : Machine) → play (Tick 0) limit m ≡ reached (nothing (turn m)) }
{}

/// Where no thread is Ready, `tick` ends the turn.
#[tactic(auto, using(crate::proofs::Histories::HistoryLemmas::tick_idle))]
pub fn idle_tick_ends_the_turn()
    ensures { (n limit : ℕ) (m : Machine) → is_some (actor m) ≡ false → play (Tick n) limit m ≡ reached (nothing (turn m)) }
{}

/// Where a step is still to be done, a thread is Ready and the steps equal the limit, the limit is met in that state.
#[tactic(auto, using(crate::proofs::Histories::HistoryLemmas::tick_met))]
pub fn tick_meets_the_limit()
    ensures { (n limit : ℕ) (m : Machine) → 1 ≤ n → is_some (actor m) ≡ true → m.steps ≡ limit → play (Tick n) limit m ≡ stopped m }
{}

/// Where the steps don't equal it, the tick is one step, and then the tick of one step fewer.
#[tactic(auto, using(crate::proofs::Histories::HistoryLemmas::tick_steps))]
pub fn tick_does_one_step_after_another()
    ensures { (n limit : ℕ) (m : Machine) → 1 ≤ n → is_some (actor m) ≡ true → m.steps ≢ limit
        → play (Tick n) limit m ≡ behind (step m).records (play (Tick (n - 1)) limit (step m).machine) }
{}

/// No events leave the machine as it is.
#[tactic(auto, using(crate::proofs::Histories::HistoryLemmas::history_none))]
pub fn no_events_do_nothing()
    ensures { (limit : ℕ) (m : Machine) → history [] limit m ≡ reached (nothing m) }
{}

/// The first event is played, and then the others.
#[tactic(auto, using(crate::proofs::Histories::HistoryLemmas::history_first))]
pub fn events_are_played_in_order()
    ensures { (event : Event) (events : List Event) (limit : ℕ) (m : Machine)
        → history (event ∷ events) limit m ≡ followed_by (play event limit m) (history events limit) }
{}

/// The history of two lists of events is that of the first, followed by that of the second.
#[tactic(auto, using(crate::proofs::Histories::HistoryLemmas::history_append))]
pub fn histories_follow_each_other()
    ensures { (before after : List Event) (limit : ℕ) (m : Machine)
        → history (before ++ after) limit m ≡ followed_by (history before limit m) (history after limit) }
{}

/// Where the limit was met, no event adds anything.
#[tactic(auto, using(crate::proofs::Histories::HistoryLemmas::stays_met))]
pub fn nothing_follows_the_limit()
    ensures { (before after : List Event) (limit : ℕ) (m : Machine) → (history before limit m).met ≡ true
        → history (before ++ after) limit m ≡ history before limit m }
{}

/// The records of the first events are the first records of all.
#[tactic(auto, using(crate::proofs::Histories::HistoryLemmas::records_front))]
pub fn records_are_only_added()
    ensures { (before after : List Event) (limit : ℕ) (m : Machine)
        → (rest : List Rec) × ((history (before ++ after) limit m).records ≡ (history before limit m).records ++ rest) }
{}

/// A history does no step beyond the limit.
#[tactic(auto, using(crate::proofs::Histories::LimitLemmas::history_within))]
pub fn steps_stay_within_the_limit()
    ensures { (events : List Event) (limit : ℕ) (m : Machine) → m.steps ≤ limit → (history events limit m).machine.steps ≤ limit }
{}

/// Where the limit was met, the steps equal it.
#[tactic(auto, using(crate::proofs::Histories::LimitLemmas::history_met))]
pub fn steps_equal_the_limit_met()
    ensures { (events : List Event) (limit : ℕ) (m : Machine) → (history events limit m).met ≡ true
        → (history events limit m).machine.steps ≡ limit }
{}
