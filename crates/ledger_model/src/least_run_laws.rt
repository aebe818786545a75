//! The least run of free places.

ghost use Rattle.ledger_model.specs.LeastRun.{HasNoRun, IsLeastRun, least_run};
ghost use Rattle.ledger_model.specs.Ledger.{Ledger};
ghost use Rattle.std.specs.Prelude.{None, Some, ℕ, ◌<◌, ◌↔◌, ◌≡◌};
ghost use Rattle.xk_base.specs.declared.ids.Pid.{Pid};
ghost use Rattle.xk_base.specs.declared.ids.Vpn.{Vpn};
ghost use Rattle.xk_base.specs.declared.windows.Window.{Window};

/// What is found is a free run in its window, and the least.
pub fn least_run_is_least()
    ensures { (procs : ℕ) (ledger : Ledger) (pid : Pid) (window : Window) (n : ℕ) (first : Vpn)
        → least_run procs ledger pid window n ≡ Some first
        → IsLeastRun procs ledger pid window n first }
{}

/// There is none exactly where no run in the window is free.
pub fn least_run_is_none()
    ensures { (procs : ℕ) (ledger : Ledger) (pid : Pid) (window : Window) (n : ℕ) → 0 < n
        → (least_run procs ledger pid window n ≡ None) ↔ HasNoRun procs ledger pid window n }
{}
