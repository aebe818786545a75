//! A memory with its first pages.

ghost use Rattle.xk_base.specs.Tables.Circle.{is_pid};
ghost use Rattle.std.specs.Prelude.{◌≡◌, ◌≢◌, ℕ, ◌+◌, ◌-◌, ◌*◌, ◌%◌, ◌<◌, ◌≤◌, true, length, All, AllPairs, IfOk, IfErr, None, OnOk, OnErr, Some};
ghost use Rattle.boot_plan.specs.Capacity.{page_frames};
ghost use Rattle.xk_base.specs.Numbers.Limits.{table_frames};
ghost use Rattle.boot_plan.specs.FirstPages.{planned_pages};
ghost use Rattle.boot_plan.specs.Lawful.{IsLawfulPage, IsLawfulPlan, IsLawfulProcess};
ghost use Rattle.boot_plan.specs.declared.plans.PagePlan.{PagePlan};
ghost use Rattle.ledger_model.specs.Ledger.{empty_ledger};
ghost use Rattle.ledger_model.specs.Loans.{bare};
ghost use Rattle.ledger_model.specs.Places.{is_user_place};
ghost use Rattle.ledger_model.specs.Reach.{is_free};
ghost use Rattle.phys_pages.specs.Owners.{extent, infos, no_infos, seat_eq};
ghost use Rattle.phys_pages.specs.Ram.{area, pages};
ghost use Rattle.sv32_space.specs.Agreement.{owned_by};
ghost use Rattle.sv32_space.specs.declared.sides.Entry.TheVariants.{Free};
ghost use Rattle.sv32_space.specs.PageSteps.{place_page};
ghost use Rattle.sv32_space.specs.Spaces.{IsMade};
ghost use Rattle.sv32_space.specs.SpelledEntries.{entries};
ghost use Rattle.vm_memory.specs.Bytes.{MeansBytes, none_out, used_frames};
ghost use Rattle.xk_ports.specs.Keeping.{KeepsStore};
ghost use Rattle.vm_memory.specs.Pages.Changing.{IsFrameAtHand, IsFreeFrame, ChangesPagesAlone};
ghost use Rattle.vm_memory.specs.FirstLedger.{first_ledger, first_page, page_bytes};
ghost use Rattle.vm_memory.specs.Memory.{IsUsable, capacity_of, frames_for_pages, ledger, processes, size, store_of};
ghost use Rattle.vm_memory.specs.Sound.{IsSound};
ghost use Rattle.vm_memory.specs.Starting.{FillsFirstFrames, FillsInOrder, HasNoPage, IsUnlent, KeepsUnlent, PlacesPages, page_count};
ghost use Rattle.vm_memory.specs.Starting.{place_pages, place_processes};
ghost use Rattle.vm_memory.specs.Tie.{IsTied};
ghost use Rattle.xk_base.specs.Tables.Counting.{put_at};
ghost use Rattle.xk_base.specs.Outside.{Rose};
ghost use Rattle.xk_base.specs.declared.ids.Place.{Place};
ghost use Rattle.xk_base.specs.declared.limits.TheConstants.{FRAME_LIMIT, PROCESS_LIMIT, SLOT_LIMIT};

use crate::memory::{BootError, BootFault, Memory};
use boot_plan::{BootPlan, PagePlan, ProcPlan};
use phys_pages::{Owners, Ram, Seat};
use std::alloc::Global;
use sv32_space::new_space;
use xk_base::limits::TABLE_FRAMES;
use xk_base::{Failed, Frame, NoMemory, Pid, Place, Slot};
use xk_ports::SwapStore;

// Fills a page with its bytes of the file, then zeros.
fn fill(page: &mut [u8], file: &[u8], plan: &PagePlan)
    requires whole { length page.old ≡ 4096 }
    requires lawful { IsLawfulPage (length file.now) plan.now }
    ensures { page.new ≡ page_bytes file.now plan.now }
{
    let len = plan.len as usize;
    let from = plan.from as usize;
    let (front, rest) = page.split_at_mut(len);
    front.copy_from_slice(&file[from..from + len]);
    rest.fill(0);
}

// RAM and an owner table without a page, for the processes of a plan.
fn empty_parts(alloc: Global, plan: &BootPlan, procs: u32) -> Result<(Ram, Owners), NoMemory>
    requires tables { table_frames procs + 2 ≤ plan.now.frames }
    requires frames { plan.now.frames ≤ FRAME_LIMIT }
    requires start { plan.now.ram_start % 4096 ≡ 0 }
    requires below { plan.now.ram_start + 4096 * plan.now.frames ≤ 0xF000_0000 }
    requires slots { plan.now.slots ≤ SLOT_LIMIT }
    ensures area { IfOk result (λ parts. area parts.0 ≡ record { start = plan.now.ram_start; frames = plan.now.frames }) }
    ensures extent { IfOk result
        (λ parts. extent parts.1 ≡ record { first = 21 * procs; frames = plan.now.frames - 21 * procs; slots = plan.now.slots }) }
    ensures infos { IfOk result (λ parts. infos parts.1 ≡ no_infos) }
{
    let ram = Ram::new(alloc, plan.ram_start, plan.frames)?;
    let first = TABLE_FRAMES * procs;
    let owners = Owners::new(alloc, Frame(first), plan.frames - first, plan.slots)?;
    Ok((ram, owners))
}

// Makes the spaces of the processes, with all entries free.
fn make_spaces(ram: &mut Ram, procs: u32)
    requires few { procs ≤ PROCESS_LIMIT }
    requires within { 21 * procs ≤ (area ram.old).frames }
    ensures made { (pid : ℕ) → is_pid procs pid ≡ true → IsMade ram.new pid }
    ensures free { (q : Place) → is_user_place procs q ≡ true → entries procs ram.new q ≡ Some Free }
    ensures area { area ram.new ≡ area ram.old }
{
    'spaces: for k in 0..procs {
        new_space(ram, Frame(TABLE_FRAMES * k));
    }
}

impl<W: SwapStore> Memory<W> {
    // A memory without a page.
    fn without_pages(alloc: Global, plan: &BootPlan, store: W) -> Result<Memory<W>, BootFault<W>>
        requires some { 1 ≤ length plan.now.procs }
        requires few { length plan.now.procs ≤ PROCESS_LIMIT }
        requires tables { table_frames (length plan.now.procs) + 2 ≤ plan.now.frames }
        requires frames { plan.now.frames ≤ FRAME_LIMIT }
        requires start { plan.now.ram_start % 4096 ≡ 0 }
        requires below { plan.now.ram_start + 4096 * plan.now.frames ≤ 0xF000_0000 }
        requires few_slots { plan.now.slots ≤ SLOT_LIMIT }
        requires slots { plan.now.slots ≤ W.slot_count store }
        ensures sound { IfOk result (λ m. IsSound W.slot_count m) }
        ensures usable { IfOk result (λ m. IsUsable m) }
        ensures free { IfOk result (λ m. FillsFirstFrames m) }
        ensures ledger { IfOk result (λ m. ledger W.held m ≡ empty_ledger) }
        ensures size { IfOk result
            (λ m. size m ≡ record {
              procs = length plan.now.procs;
              area = record { start = plan.now.ram_start; frames = plan.now.frames };
              slots = plan.now.slots;
            }) }
        ensures none { IfOk result (λ m. m.pages ≡ 0) }
        ensures store { IfOk result (λ m. store_of m ≡ store) }
        ensures fault { IfErr result (λ fault. (fault.why ≡ BootError.NoMemory) × (fault.store ≡ store)) }
    {
        let procs = plan.procs.as_slice().len() as u32;
        match empty_parts(alloc, plan, procs) {
            Ok((mut ram, owners)) => {
                make_spaces(&mut ram, procs);
                // For the prover: RAM starts at a page and ends below the console.
                let _frames = ram.frames();
                Ok(Memory {
                    ram,
                    owners,
                    store,
                    failed: false,
                    procs,
                    slots: plan.slots,
                    pages: 0,
                    hand: 0,
                })
            }
            Err(NoMemory) => Err(BootFault {
                why: BootError::NoMemory,
                store,
            }),
        }
    }

    // Puts a page of the plan at its free home, in a free frame.
    fn place_in(&mut self, at: Place, f: Frame, page: &PagePlan, file: &[u8])
        requires sound { IsSound W.slot_count self.old }
        requires place { is_user_place (processes self.old) at ≡ true }
        requires free { is_free (processes self.old) (ledger W.held self.old) at ≡ true }
        requires room { self.old.pages + 1 ≤ capacity_of self.old }
        requires left { IsUsable self.old → self.old.pages + 1 ≤ frames_for_pages self.old }
        requires frame { IsFreeFrame self.old.owners f.0 }
        requires hand { frames_for_pages self.old ≤ self.old.pages → IsFrameAtHand self.old f.0 }
        requires page { IsLawfulPage (length file.now) page.now }
        ensures sound { IsSound W.slot_count self.new }
        ensures ledger { ledger W.held self.new ≡ place_page at (first_page file.now page.now) (ledger W.held self.old) }
        ensures owners { infos self.new.owners ≡ put_at seat_eq (infos self.old.owners) (Seat.Frame f) (Some (owned_by at)) }
        ensures pages { self.new.pages ≡ self.old.pages + 1 }
        ensures rest { ChangesPagesAlone self.old self.new }
    {
        self.place_page(at, page.right, f);
        fill(self.ram.page_mut(f), file, page);
    }

    // .. in the last free frame: then another page goes out, to the first slot that was never used.
    fn place_crowded(&mut self, at: Place, page: &PagePlan, file: &[u8]) -> Result<(), Failed>
        requires sound { IsSound W.slot_count self.old }
        requires usable { IsUsable self.old }
        requires place { is_user_place (processes self.old) at ≡ true }
        requires free { is_free (processes self.old) (ledger W.held self.old) at ≡ true }
        requires room { self.old.pages + 1 ≤ capacity_of self.old }
        requires last { used_frames self.old.owners ≡ frames_for_pages self.old }
        requires page { IsLawfulPage (length file.now) page.now }
        ensures placed { PlacesPages W.SwapStore self.old self.new 1 (place_page at (first_page file.now page.now)) }
        ensures last { OnOk result (used_frames self.new.owners ≡ frames_for_pages self.new) }
        ensures usable { OnOk result (IsUsable self.new) }
        ensures cause { OnErr result (Rose (W.faults (store_of self.old)) (W.faults (store_of self.new))) }
    {
        let next = Slot(self.pages.saturating_sub(self.page_frames()));
        let f = self.free_frame();
        self.failed = true;
        self.place_in(at, f, page, file);
        let Some(to) = self.next_slot(next) else {
            unreachable!();
        };
        self.put_out(f, to)
    }

    // .. in the next of the first frames while there are frames for all pages, so that no frame is
    // searched for and no page goes out.
    fn place_first(&mut self, at: Place, page: &PagePlan, file: &[u8]) -> Result<(), Failed>
        requires sound { IsSound W.slot_count self.old }
        requires usable { IsUsable self.old }
        requires place { is_user_place (processes self.old) at ≡ true }
        requires free { is_free (processes self.old) (ledger W.held self.old) at ≡ true }
        requires room { self.old.pages + 1 ≤ capacity_of self.old }
        requires order { FillsInOrder self.old }
        requires page { IsLawfulPage (length file.now) page.now }
        ensures placed { PlacesPages W.SwapStore self.old self.new 1 (place_page at (first_page file.now page.now)) }
        ensures order { OnOk result (FillsInOrder self.new) }
        ensures usable { OnOk result (IsUsable self.new) }
        ensures cause { OnErr result (Rose (W.faults (store_of self.old)) (W.faults (store_of self.new))) }
        ensures full { OnErr result (frames_for_pages self.old ≤ self.old.pages) }
    {
        if self.pages < self.page_frames() {
            let f = Frame(TABLE_FRAMES * self.procs + self.pages);
            self.place_in(at, f, page, file);
            return Ok(());
        }
        self.place_crowded(at, page, file)
    }

    // Puts the pages of a process at their homes.
    fn place_process(&mut self, pid: Pid, plan: &[PagePlan], file: &[u8]) -> Result<(), Failed>
        requires sound { IsSound W.slot_count self.old }
        requires usable { IsUsable self.old }
        requires process { is_pid (processes self.old) pid.0 ≡ true }
        requires unlent { IsUnlent (ledger W.held self.old) }
        requires free { HasNoPage pid.0 (ledger W.held self.old) }
        requires order { FillsInOrder self.old }
        requires room { self.old.pages + length plan.now ≤ capacity_of self.old }
        requires lawful { All (IsLawfulPage (length file.now)) plan.now }
        requires different { AllPairs (λ (a b : PagePlan). a.vpn.0 ≢ b.vpn.0) plan.now }
        ensures keeps { KeepsUnlent W.SwapStore self.old self.new }
        ensures placed { OnOk result (PlacesPages W.SwapStore self.old self.new (length plan.now) (place_pages file.now pid plan.now)) }
        ensures order { OnOk result (FillsInOrder self.new) }
        ensures usable { OnOk result (IsUsable self.new) }
        ensures cause { OnErr result (Rose (W.faults (store_of self.old)) (W.faults (store_of self.new))) }
        ensures full { OnErr result (frames_for_pages self.old < self.old.pages + length plan.now) }
    {
        'pages: for k in 0..plan.len() {
            let page = plan[k];
            let at = Place { pid, vpn: page.vpn };
            self.place_first(at, &page, file)?;
        }
        Ok(())
    }

    // Puts the pages of all processes at their homes.
    fn place_processes(&mut self, plan: &[ProcPlan], file: &[u8]) -> Result<(), Failed>
        requires sound { IsSound W.slot_count self.old }
        requires usable { IsUsable self.old }
        requires processes { processes self.old ≡ length plan.now }
        requires empty { ledger W.held self.old ≡ empty_ledger }
        requires order { FillsInOrder self.old }
        requires room { self.old.pages + page_count plan.now ≤ capacity_of self.old }
        requires lawful { All (IsLawfulProcess (length file.now)) plan.now }
        ensures keeps { KeepsUnlent W.SwapStore self.old self.new }
        ensures placed { OnOk result
            (PlacesPages W.SwapStore self.old self.new (page_count plan.now) (place_processes file.now 2 plan.now)) }
        ensures order { OnOk result (FillsInOrder self.new) }
        ensures usable { OnOk result (IsUsable self.new) }
        ensures cause { OnErr result (Rose (W.faults (store_of self.old)) (W.faults (store_of self.new))) }
        ensures full { OnErr result (frames_for_pages self.old < self.old.pages + page_count plan.now) }
    {
        'processes: for k in 0..plan.len() {
            let process = &plan[k];
            self.place_process(Pid(k as u8 + 2), process.pages.as_slice(), file)?;
        }
        Ok(())
    }

    /// A memory with the first pages of a plan, with their bytes from the file that it was made for.
    /// All memory is taken here. Want of it, or `SwapFault` of the store, hands the store back. Where
    /// there are frames for all pages, no page is out and `SwapFault` doesn't come; it takes time by
    /// RAM and the pages. Else each page past those frames puts another one out, and it takes time
    /// by RAM and the pages too.
    pub fn boot(
        alloc: Global,
        plan: &BootPlan,
        file: &[u8],
        store: W,
    ) -> Result<Memory<W>, BootFault<W>>
        requires lawful { IsLawfulPlan (length file.now) plan.now }
        requires slots { plan.now.slots ≤ W.slot_count store }
        ensures sound { IfOk result (λ m. IsSound W.slot_count m) }
        ensures usable { IfOk result (λ m. IsUsable m) }
        ensures rights { IfOk result (λ m. bare (ledger W.held m) ≡ bare (first_ledger plan.now file.now)) }
        ensures whole { IfOk result (λ m. MeansBytes W.SwapStore m → ledger W.held m ≡ first_ledger plan.now file.now) }
        ensures tie { IfOk result (λ m. IsTied W.held m) }
        ensures size { IfOk result
            (λ m. size m ≡ record {
              procs = length plan.now.procs;
              area = record { start = plan.now.ram_start; frames = plan.now.frames };
              slots = plan.now.slots;
            }) }
        ensures store { IfOk result (λ m. KeepsStore W.SwapStore store (store_of m)) }
        ensures back { IfErr result (λ fault. KeepsStore W.SwapStore store fault.store) }
        // A swap fault comes only where the store's count rose and the pages don't fit in frames.
        ensures cause { IfErr result (λ fault. fault.why ≡ BootError.SwapFault → Rose (W.faults store) (W.faults fault.store)) }
        ensures out { IfErr result (λ fault. fault.why ≡ BootError.SwapFault
            → page_frames plan.now.frames (length plan.now.procs) < planned_pages plan.now) }
        // A page goes out only where there aren't frames for all pages.
        ensures near { planned_pages plan.now ≤ page_frames plan.now.frames (length plan.now.procs) → IfOk result (λ m. none_out m ≡ true) }
    {
        let mut memory = Memory::without_pages(alloc, plan, store)?;
        match memory.place_processes(plan.procs.as_slice(), file) {
            Ok(()) => Ok(memory),
            Err(Failed) => Err(BootFault {
                why: BootError::SwapFault,
                store: memory.close(),
            }),
        }
    }
}
