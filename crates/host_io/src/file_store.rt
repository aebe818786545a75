//! A store in a file.

ghost use Rattle.std.specs.Prelude.{◌≡◌, ◌≤◌, ◌*◌, length, OnOk, OnErr};
ghost use Rattle.std.specs.Option.{option_map};
ghost use Rattle.xk_base.specs.declared.limits.TheConstants.{SLOT_LIMIT};
ghost use Rattle.xk_base.specs.Outside.{Rose};
ghost use Rattle.xk_ports.specs.Store.{IsZeroPage, HoldsZeros, SpoilsSlot, GivesPage, with_page};
ghost use Rattle.host_io.specs.Adapters.{faults_of};
ghost use Rattle.host_io.specs.PageFile.{slots_in, held_in};

use crate::page_file::{Disk, PageFile};
use std::alloc::Global;
use xk_base::limits::PAGE_SIZE;
use xk_base::{Failed, Slot};
use xk_ports::{StoreFault, SwapStore};

/// How many bytes a slot has: those of a page.
const PAGE: usize = PAGE_SIZE as usize;

/// A store whose slots stand in a file, each at 4096 times its number. It tells what the file tells.
#[derive(Drop)]
pub struct FileStore<'a, D: Disk> {
    disk: &'a D,
    file: Option<D::File>,
    slots: u32,
    faults: u64,
}

impl<'a, D: Disk> FileStore<'a, D> {
    /// A store in the place of one with that many slots and faults. No file is open.
    pub fn in_place_of(disk: &'a D, slots: u32, faults: u64) -> FileStore<'a, D>
        ensures slots { result.slots ≡ slots }
        ensures faults { result.faults ≡ faults }
    {
        FileStore {
            disk,
            file: None,
            slots,
            faults,
        }
    }

    /// Counts a fault.
    fn fault(&mut self)
        ensures file { self.new.file ≡ self.old.file }
        ensures slots { self.new.slots ≡ self.old.slots }
        ensures rose { Rose (faults_of self.old.faults) (faults_of self.new.faults) }
        ensures never_falls { self.old.faults ≤ self.new.faults }
    {
        self.faults = self.faults.saturating_add(1);
    }

    /// Opens the file of that name, or makes it, and writes zeros to its slots; what it holds behind
    /// them stays. Without a name it writes to the file that is open, and fails where none is.
    pub fn fill(&mut self, slots: u32, name: Option<&str>) -> Result<(), Failed>
        requires { slots ≤ SLOT_LIMIT }
        ensures count { OnOk result (self.new.slots ≡ slots) }
        ensures zeros { OnOk result (HoldsZeros (held_in D.File.bytes self.new.file) slots) }
        ensures kept { OnErr result (self.new.slots ≡ self.old.slots) }
        ensures cause { OnErr result (Rose (faults_of self.old.faults) (faults_of self.new.faults)) }
        ensures never_falls { self.old.faults ≤ self.new.faults }
    {
        match self.open_and_clear(slots, name) {
            Ok(()) => {
                self.slots = slots;
                Ok(())
            }
            Err(Failed) => {
                self.fault();
                Err(Failed)
            }
        }
    }

    /// Opens the file where a name is given, and writes zeros to its first slots.
    fn open_and_clear(&mut self, slots: u32, name: Option<&str>) -> Result<(), Failed>
        requires { slots ≤ SLOT_LIMIT }
        ensures zeros { OnOk result (HoldsZeros (held_in D.File.bytes self.new.file) slots) }
        ensures slots { self.new.slots ≡ self.old.slots }
        ensures faults { self.new.faults ≡ self.old.faults }
    {
        if let Some(name) = name {
            self.file = Some(self.disk.open(name)?);
        }
        match &mut self.file {
            Some(file) => write_zeros(file, slots),
            None => Err(Failed),
        }
    }
}

/// The offset of a slot in bytes.
fn offset_of(s: Slot) -> u64
    ensures { result ≡ s.0 * 4096 }
{
    u64::from(s.0) * PAGE as u64
}

/// Writes a page to a slot of a file.
fn write_slot<F: PageFile>(file: &mut F, s: Slot, page: &[u8]) -> Result<(), Failed>
    requires { length page.now ≡ 4096 }
    ensures put { OnOk result (
        slots_in (F.bytes file.new) ≡ option_map (λ pages. with_page pages s.0 page.now) (slots_in (F.bytes file.old))
        ) }
    ensures spoilt { OnErr result (SpoilsSlot (slots_in (F.bytes file.old)) (slots_in (F.bytes file.new)) s.0) }
{
    file.write_page(page, offset_of(s))
}

/// Reads the page of a slot of a file.
fn read_slot<F: PageFile>(file: &mut F, s: Slot, into: &mut [u8]) -> Result<(), Failed>
    requires { length into.old ≡ 4096 }
    ensures got { OnOk result (GivesPage (slots_in (F.bytes file.old)) s.0 into.new) }
    ensures same { slots_in (F.bytes file.new) ≡ slots_in (F.bytes file.old) }
{
    file.read_page(into, offset_of(s))
}

/// A page of zeros.
fn zero_page() -> [u8; PAGE]
    ensures { IsZeroPage result }
{
    [0; PAGE]
}

/// Writes a page of zeros to each of the first slots.
fn write_zeros<F: PageFile>(file: &mut F, slots: u32) -> Result<(), Failed>
    requires { slots ≤ SLOT_LIMIT }
    ensures { OnOk result (HoldsZeros (slots_in (F.bytes file.new)) slots) }
{
    let zeros = zero_page();
    for slot in 0..slots {
        write_slot(file, Slot(slot), &zeros)?;
    }
    Ok(())
}

impl<'a, D: Disk> SwapStore for FileStore<'a, D> {
    ghost use Rattle.std.specs.Prelude.{None, true};
    ghost use Rattle.std.proofs.Common.{arith};
    ghost use Rattle.host_io.specs.Adapters.{faults_of};
    ghost use Rattle.host_io.specs.PageFile.{held_in};

    ghost held = { λ s. held_in D.File.bytes s.file };

    ghost is_honest = { λ _. true };

    ghost slot_count = { λ s. s.slots };

    ghost asked = { λ _. None };

    ghost faults = { λ s. faults_of s.faults };

    ghost bounded = { λ s. Prim.omega arith };

    fn prepare(
        &mut self,
        _alloc: Global,
        slots: u32,
        name: Option<&str>,
    ) -> Result<(), StoreFault> {
        self.fill(slots, name).or(Err(StoreFault::Failed))
    }

    fn slots(&self) -> u32 {
        self.slots
    }

    fn put_page(&mut self, s: Slot, page: &[u8]) -> Result<(), Failed> {
        let put = match &mut self.file {
            Some(file) => write_slot(file, s, page),
            None => Err(Failed),
        };
        if put.is_err() {
            self.fault();
        }
        put
    }

    fn get_page(&mut self, s: Slot, into: &mut [u8]) -> Result<(), Failed> {
        let got = match &mut self.file {
            Some(file) => read_slot(file, s, into),
            None => Err(Failed),
        };
        if got.is_err() {
            self.fault();
        }
        got
    }
}
