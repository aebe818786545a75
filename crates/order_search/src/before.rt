//! The events that are played before orders begin.

ghost use Rattle.std.specs.Prelude.{◌≡◌, ◌≤◌, ◌∷◌, [], IfErr, IfOk, OnOk, Some};
ghost use Rattle.xk_base.specs.declared.limits.TheConstants.{STEP_LIMIT};
ghost use Rattle.event_player.specs.Gathering.{Text};
ghost use Rattle.event_player.specs.History.{run_of};
ghost use Rattle.order_search.specs.Before.{IsPlayedWhole, Unplayed};
ghost use Rattle.event_player.specs.Standing.{Begins, stand};
ghost use Rattle.machine_model.specs.State.Machine.{Machine};
ghost use Rattle.xk_kernel.specs.Knowing.{IsTrusted};
ghost use Rattle.xk_kernel.specs.Sound.{IsSound, IsUsable, Keeps};
ghost use Rattle.xk_kernel.specs.State.{machine_of};

use crate::console::Console;
use crate::quest::{OrderFault, no_memory};
use event_player::{Ending, Telling, play_file};
use graph_search::Unanswered;
use host_io::PIECE;
use std::alloc::Global;
use xk_base::NoMemory;
use xk_base::limits::STEP_LIMIT;
use xk_kernel::Kernel;
use xk_ports::{FileSlot, Host, MemHost, SureStore, SwapStore};

/// The name of the one file of a host.
const NAME: &str = "events";

/// A host of one file.
fn one_file(alloc: Global, bytes: &[u8]) -> Result<MemHost, NoMemory>
    ensures { IfOk result (λ host. host.files ≡ (NAME.now, bytes.now) ∷ []) }
{
    let Ok(name) = String::from_str(alloc, NAME) else {
        return Err(NoMemory);
    };
    let Ok(bytes) = bytes.to_vec(alloc) else {
        return Err(NoMemory);
    };
    let mut files = Vec::new(alloc);
    let Ok(()) = files.push((name, bytes)) else {
        return Err(NoMemory);
    };
    MemHost::new(alloc, files, PIECE, Vec::new(alloc), 16)
}

/// A host at whose second slot a file with these bytes is picked.
fn host_of(alloc: Global, bytes: &[u8]) -> Result<MemHost, NoMemory>
    ensures { IfOk result (λ host. host.second ≡ Some bytes.now) }
{
    let mut host = one_file(alloc, bytes)?;
    match host.pick_file(FileSlot::Second, NAME) {
        Ok(()) => Ok(host),
        Err(_) => Err(NoMemory),
    }
}

/// Plays the events of a file with these bytes, and answers the bytes that went to the console.
pub(crate) fn play_before(
    alloc: Global,
    kernel: &mut Kernel<SureStore>,
    events: &[u8],
) -> Result<Vec<u8>, Unanswered<OrderFault>>
    requires sound { IsSound ⟦<SureStore as SwapStore>⟧ kernel.old }
    requires usable { IsUsable kernel.old }
    requires trusted { IsTrusted ⟦<SureStore as SwapStore>⟧ kernel.old }
    requires within { (machine_of ⟦<SureStore as SwapStore>⟧.held kernel.old).steps ≤ STEP_LIMIT }
    ensures plays { let S = ⟦<SureStore as SwapStore>⟧ in
        (m : Machine) → ((text : Text) → Begins m (stand S kernel.old text))
        → IfOk result (λ console. IsPlayedWhole (run_of STEP_LIMIT m events.now) (machine_of S.held kernel.new) console.items) }
    ensures fault { let S = ⟦<SureStore as SwapStore>⟧ in
        (m : Machine) → ((text : Text) → Begins m (stand S kernel.old text))
        → IfErr result (Unplayed (run_of STEP_LIMIT m events.now).ending) }
    ensures sound { IsSound ⟦<SureStore as SwapStore>⟧ kernel.new }
    ensures usable { OnOk result (IsUsable kernel.new) }
    ensures keeps { Keeps ⟦<SureStore as SwapStore>⟧ kernel.old kernel.new }
{
    let Ok(mut host) = host_of(alloc, events) else {
        return Err(no_memory());
    };
    let mut console = Console::new(alloc);
    match play_file(kernel, &mut host, Telling::Run, STEP_LIMIT, &mut console) {
        Ok(Ending::Played) => Ok(console.into_bytes()),
        Ok(Ending::LimitMet) => Err(Unanswered::Fault(OrderFault::Steps)),
        Ok(Ending::BadLine(line)) => Err(Unanswered::Fault(OrderFault::Line(line))),
        Err(_) => Err(no_memory()),
    }
}
