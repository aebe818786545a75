//! The store of the program: in memory, or in a file where a name is given.

ghost use Rattle.std.specs.Prelude.{◌≡◌};
ghost use Rattle.host_io.specs.ProgramStore.{slots_of, count_of, IsInFile};

use crate::file_store::FileStore;
use crate::page_file::Disk;
use std::alloc::Global;
use xk_base::{Failed, Slot};
use xk_ports::{MemStore, StoreFault, SwapStore};

/// Pages in memory until `prepare` gets a name, and in a file from then on.
#[derive(Drop)]
pub enum ProgramStore<'a, D: Disk> {
    /// Pages in memory, the faults so far, and the disk that a file is opened on.
    Memory {
        pages: MemStore,
        faults: u64,
        disk: &'a D,
    },
    /// Pages in a file.
    File(FileStore<'a, D>),
}

impl<'a, D: Disk> ProgramStore<'a, D> {
    /// A store in memory without slots, and no fault so far.
    pub fn new(alloc: Global, disk: &'a D) -> ProgramStore<'a, D>
        ensures slots { slots_of result ≡ 0 }
        ensures faults { count_of result ≡ 0 }
    {
        ProgramStore::Memory {
            pages: MemStore::new(Vec::new(alloc)),
            faults: 0,
            disk,
        }
    }

    /// Goes on in a file, of which none is open yet.
    fn leave_memory(&mut self)
        ensures slots { slots_of self.new ≡ slots_of self.old }
        ensures faults { count_of self.new ≡ count_of self.old }
        ensures file { IsInFile self.new }
    {
        if let ProgramStore::Memory {
            pages,
            faults,
            disk,
        } = self
        {
            *self = ProgramStore::File(FileStore::in_place_of(*disk, pages.slots(), *faults));
        }
    }
}

impl<'a, D: Disk> SwapStore for ProgramStore<'a, D> {
    ghost use Rattle.std.specs.Prelude.{true};
    ghost use Rattle.std.proofs.Common.{arith};
    ghost use Rattle.host_io.specs.Adapters.{faults_of};
    ghost use Rattle.host_io.specs.ProgramStore.{held_of, slots_of, asked_of, count_of};

    ghost held = { λ s. held_of D.File.bytes s };

    ghost is_honest = { λ _. true };

    ghost slot_count = { λ s. slots_of s };

    ghost asked = { λ s. asked_of s };

    ghost faults = { λ s. faults_of (count_of s) };

    ghost bounded = { λ s. Prim.omega arith };

    fn prepare(&mut self, alloc: Global, slots: u32, name: Option<&str>) -> Result<(), StoreFault> {
        if name.is_some() {
            self.leave_memory();
        }
        match self {
            ProgramStore::Memory { pages, faults, .. } => {
                let prepared = pages.prepare(alloc, slots, name);
                if prepared == Err(StoreFault::Failed) {
                    *faults = faults.saturating_add(1);
                }
                prepared
            }
            ProgramStore::File(store) => store.fill(slots, name).or(Err(StoreFault::Failed)),
        }
    }

    fn slots(&self) -> u32 {
        match self {
            ProgramStore::Memory { pages, .. } => pages.slots(),
            ProgramStore::File(store) => store.slots(),
        }
    }

    fn put_page(&mut self, s: Slot, page: &[u8]) -> Result<(), Failed> {
        match self {
            ProgramStore::Memory { pages, faults, .. } => {
                let put = pages.put_page(s, page);
                if put.is_err() {
                    *faults = faults.saturating_add(1);
                }
                put
            }
            ProgramStore::File(store) => store.put_page(s, page),
        }
    }

    fn get_page(&mut self, s: Slot, into: &mut [u8]) -> Result<(), Failed> {
        match self {
            ProgramStore::Memory { pages, faults, .. } => {
                let got = pages.get_page(s, into);
                if got.is_err() {
                    *faults = faults.saturating_add(1);
                }
                got
            }
            ProgramStore::File(store) => store.get_page(s, into),
        }
    }
}
