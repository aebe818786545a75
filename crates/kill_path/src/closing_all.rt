//! All servers close.

ghost use Rattle.std.specs.Prelude.{◌≡◌, All};
ghost use Rattle.ledger_model.specs.Loans.{IsFresh, loans};
ghost use Rattle.msg_queue.specs.Seats.{used_of};
ghost use Rattle.vm_memory.specs.Memory.{ledger, processes};
ghost use Rattle.vm_memory.specs.Sound.{IsSound as IsMemorySound};
ghost use Rattle.xk_base.specs.declared.ids.Number.{Number as MessageNumber};
ghost use Rattle.kill_path.specs.Keeping.{Stays};
ghost use Rattle.xk_parts.specs.Sound.{AreServersSound};

use crate::answered::Answered;
use crate::closing::close_servers;
use msg_queue::Queues;
use server_table::Servers;
use vm_memory::Memory;
use xk_base::Pid;
use xk_base::limits::PROCESS_LIMIT;
use xk_ports::SwapStore;

/// The servers of all processes close: each message ends, and its loan with it, and nobody is told. Then no
/// loan is left, and no message at a seat. It asks nothing of threads, and may be called after `Failed` too.
pub fn close_all<W: SwapStore>(mem: &mut Memory<W>, servers: &mut Servers, queues: &mut Queues)
    requires sound { IsMemorySound W.slot_count mem.old }
    requires servers { AreServersSound (processes mem.old) (loans (ledger W.held mem.old)) servers.old queues.old }
    ensures no_loan { (number : MessageNumber) → IsFresh (loans (ledger W.held mem.new)) number }
    ensures empty { All (λ seat. used_of seat ≡ 0) queues.new }
    ensures stays { Stays W.SwapStore mem.old mem.new }
{
    let mut untold = Answered::new();
    for k in 0..PROCESS_LIMIT {
        close_servers(mem, servers, queues, &mut untold, Pid((k + 2) as u8));
    }
}
