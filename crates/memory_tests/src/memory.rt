//! A machine with one process: a page of code and the ends of its stack.

ghost use Rattle.xk_base.specs.Tables.Circle.{is_pid};
ghost use Rattle.std.specs.Prelude.{◌≡◌, true, length, IfOk};
ghost use Rattle.boot_plan.specs.Lawful.{IsLawfulPlan};
ghost use Rattle.ledger_model.specs.Loans.{IsFresh, loans};
ghost use Rattle.vm_memory.specs.Memory.{IsUsable, ledger, processes};
ghost use Rattle.vm_memory.specs.Sound.{IsSound};
ghost use Rattle.xk_base.specs.declared.ids.Number.{Number};

use boot_plan::{BootPlan, PagePlan, ProcPlan};
use std::alloc::Global;
use vm_memory::{BootError, BootFault, Memory};
use xk_base::{NoMemory, Number, Pid, Place, Right, Row, Vpn};
use xk_ports::SwapStore;

mod accesses;
mod calls;
mod exchange;
mod first_pages;
mod first_run;
mod loans;
mod user;
mod windows;

const PID: Pid = Pid(2);

const WRITE: Right = Right { w: true, x: false };

fn at(vpn: u32) -> Place
    ensures pid { result.pid.0 ≡ 2 }
    ensures vpn { result.vpn.0 ≡ vpn }
{
    Place {
        pid: PID,
        vpn: Vpn(vpn),
    }
}

// 16 MiB of RAM; the code is 36 bytes of a file of 88.
fn plan(alloc: Global) -> Result<BootPlan, NoMemory>
    ensures lawful { IfOk result (λ plan. IsLawfulPlan 88 plan) }
    ensures one { IfOk result (λ plan. length plan.procs ≡ 1) }
    ensures slots { IfOk result (λ plan. plan.slots ≡ 0) }
{
    let mut pages = Row::new(alloc);
    pages.push(PagePlan {
        vpn: Vpn(0x10),
        right: Right { w: false, x: true },
        from: 52,
        len: 36,
    })?;
    pages.push(PagePlan {
        vpn: Vpn(0x7_FFFF),
        right: WRITE,
        from: 0,
        len: 0,
    })?;
    let mut procs = Row::new(alloc);
    procs.push(ProcPlan {
        entry: 0x1_0000,
        sections: 1,
        pages,
    })?;
    Ok(BootPlan {
        ram_start: 0x4000_0000,
        frames: 4096,
        slots: 0,
        procs,
    })
}

// The machine after boot. The code's first word is `addi a0, zero, 1`, its last byte 0xEF.
#[tactic(auto, using(vm_memory::proofs::Booting::FirstLoanLemmas::first_fresh))]
fn booted<W: SwapStore>(alloc: Global, store: W) -> Result<Memory<W>, BootFault<W>>
    ensures sound { IfOk result (λ m. IsSound W.slot_count m) }
    ensures usable { IfOk result (λ m. IsUsable m) }
    ensures process { IfOk result (λ m. is_pid (processes m) 2 ≡ true) }
    ensures no_loan { IfOk result (λ m. (number : Number) → IsFresh (loans (ledger W.held m)) number) }
{
    let Ok(plan) = plan(alloc) else {
        return Err(BootFault {
            why: BootError::NoMemory,
            store,
        });
    };
    let mut file = [0x77; 88];
    file[52] = 0x13;
    file[53] = 0x05;
    file[54] = 0x10;
    file[55] = 0x00;
    file[87] = 0xEF;
    Memory::boot(alloc, &plan, &file, store)
}
