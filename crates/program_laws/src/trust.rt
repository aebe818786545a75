//! Laws of the stores whose pages have known bytes.

ghost use Rattle.std.specs.Prelude.{◌≡◌, true};
ghost use Rattle.vm_memory.specs.Bytes.{MeansBytes, none_out};
ghost use Rattle.xk_kernel.specs.Knowing.{IsTrusted, KnowsBytes, is_trusted};
ghost use Rattle.xk_kernel.specs.Sound.{Keeps};
ghost use Rattle.xk_kernel.specs.declared.kernel.Kernel.{Kernel};

use xk_ports::SwapStore;

/// Law: where the store is honest and tells, or the memory has no slots, it is so after each call, and bytes are known over it.
pub fn trusted_store_stays_trusted<W: SwapStore>()
    ensures stays { (old new : Kernel W) → Keeps W.SwapStore old new
        → is_trusted W.SwapStore new ≡ is_trusted W.SwapStore old }
    ensures knows { (old new : Kernel W) → IsTrusted W.SwapStore old
        → Keeps W.SwapStore old new → KnowsBytes W.SwapStore old new }
    ensures means { (k : Kernel W) → IsTrusted W.SwapStore k → MeansBytes W.SwapStore k.mem }
{}

/// Law: bytes are known over a call where no page is out before and after it.
pub fn near_pages_are_known<W: SwapStore>()
    ensures { (old new : Kernel W) → none_out old.mem ≡ true → none_out new.mem ≡ true → KnowsBytes W.SwapStore old new }
{}
