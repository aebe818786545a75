//! What holds of every sound memory, and of the runs that are found in it.

ghost use Rattle.std.specs.Prelude.{◌≡◌, ℕ, ◌^◌, ◌<◌, Some, true};
ghost use Rattle.ledger_model.specs.LeastRun.{least_run};
ghost use Rattle.ledger_model.specs.Ledger.{Ledger};
ghost use Rattle.vm_memory.specs.declared.memory.Memory.{Memory};
ghost use Rattle.vm_memory.specs.Memory.{processes};
ghost use Rattle.vm_memory.specs.Loaning.Sending.{IsFreeArrival};
ghost use Rattle.vm_memory.specs.Sound.{IsSound};
ghost use Rattle.vm_memory.specs.Using.Walking.{is_reachable, walk_reaches};
ghost use Rattle.xk_base.specs.Tables.Circle.{is_pid};
ghost use Rattle.xk_base.specs.declared.ids.Pid.{Pid};
ghost use Rattle.xk_base.specs.declared.ids.Vpn.{Vpn};
ghost use Rattle.xk_base.specs.declared.pages.Access.{Access};
ghost use Rattle.xk_base.specs.declared.windows.Window.TheVariants.{Message};

use xk_ports::SwapStore;

/// Law: the walk of Sv32 in the page tables of a process comes to a page exactly where *Reach* gives
/// the process the access there and the page isn't out.
pub fn walk_is_reach<W: SwapStore>()
    ensures { (m : Memory W) (pid : Pid) (address : ℕ) (access : Access) → IsSound W.slot_count m
        → is_pid (processes m) pid.0 ≡ true → address < 2 ^ 32
        → walk_reaches m pid address access ≡ is_reachable W.held m pid address access }
{}

/// Law: a run that `free_run` finds in the Message window is one where pages may arrive.
#[tactic(auto, using(crate::proofs::Changing::LoanCallLemmas::found_arrival))]
pub fn found_run_takes_pages()
    ensures { (procs : ℕ) (l : Ledger) (pid : Pid) (n : ℕ) (first : Vpn) → is_pid procs pid.0 ≡ true
        → least_run procs l pid Message n ≡ Some first → IsFreeArrival procs l (record { pid = pid; vpn = first }) n }
{}
