//! Where event files are written.

ghost use Rattle.std.specs.Prelude.{◌≡◌, ◌≤◌, ◌∷◌, [], ℕ, List, Option, OnErr, OnOk};
ghost use Rattle.xk_base.specs.Outside.{Rose};
ghost use Rattle.xk_ports.specs.Told.{Grows};

use std::alloc::Global;
use std::fs;
use std::rt::Files;
use xk_base::Failed;

/// Where event files are written: each into a folder of that name, which was opened, by its number.
pub trait EventFiles {
    ghost use Rattle.xousorders.specs.Files.{EventFile};

    /// Where it is told: the files that were written, in order.
    ghost written: { Self → Option (List EventFile) };

    /// The count of folders that couldn't be opened.
    ghost unopened: { Self → ℕ };

    /// The count of faults of open folders.
    ghost faults: { Self → ℕ };

    /// Opens the folder: files can be written into it. None is written.
    fn open(&mut self, folder: &str) -> Result<(), Failed>
        ensures written { written self.new ≡ written self.old }
        ensures opened { OnOk result (unopened self.new ≡ unopened self.old) }
        ensures cause { OnErr result (Rose (unopened self.old) (unopened self.new)) }
        ensures faults { faults self.new ≡ faults self.old };

    /// Writes the event file of this number into the folder.
    fn write(&mut self, folder: &str, number: u64, bytes: &[u8]) -> Result<(), Failed>
        ensures written { OnOk result (Grows (written self.old) (written self.new)
            (record { folder = folder.now; number = number; bytes = bytes.now } ∷ [])) }
        ensures opened { unopened self.new ≡ unopened self.old }
        ensures cause { OnErr result (Rose (faults self.old) (faults self.new)) }
        ensures never_falls { faults self.old ≤ faults self.new };
}

/// The disk. It doesn't tell what was written.
#[derive(Drop)]
pub struct DiskFiles<'a, R: Files> {
    rt: &'a R,
    alloc: Global,
    unopened: u64,
    faults: u64,
}

impl<'a, R: Files> DiskFiles<'a, R> {
    /// The disk, before anything failed.
    pub fn new(rt: &'a R, alloc: Global) -> DiskFiles<'a, R> {
        DiskFiles {
            rt,
            alloc,
            unopened: 0,
            faults: 0,
        }
    }

    /// Writes an empty file of another name into the folder, and removes it; without memory for the name it isn't written.
    fn try_folder(&self, folder: &str) -> Result<(), Failed> {
        let alloc = self.alloc;
        let Ok(name) = format!(in alloc; "{folder}/.xousorders") else {
            return Err(Failed);
        };
        match fs::write(self.rt, name.as_str(), b"") {
            Ok(()) => {}
            Err(_) => return Err(Failed),
        }
        match fs::remove_file(self.rt, name.as_str()) {
            Ok(()) => Ok(()),
            Err(_) => Err(Failed),
        }
    }

    /// Writes a file under the name of its number; without memory for the name it isn't written.
    fn put(&self, folder: &str, number: u64, bytes: &[u8]) -> Result<(), Failed> {
        let alloc = self.alloc;
        let Ok(name) = format!(in alloc; "{folder}/ending-{number}.events") else {
            return Err(Failed);
        };
        match fs::write(self.rt, name.as_str(), bytes) {
            Ok(()) => Ok(()),
            Err(_) => Err(Failed),
        }
    }
}

impl<'a, R: Files> EventFiles for DiskFiles<'a, R> {
    ghost use Rattle.std.specs.Prelude.{None, min};

    ghost written = { λ files. None };

    ghost unopened = { λ files. min files.unopened 18446744073709551615 };

    ghost faults = { λ files. min files.faults 18446744073709551615 };

    fn open(&mut self, folder: &str) -> Result<(), Failed> {
        match self.try_folder(folder) {
            Ok(()) => Ok(()),
            Err(Failed) => {
                self.unopened = self.unopened.saturating_add(1);
                Err(Failed)
            }
        }
    }

    fn write(&mut self, folder: &str, number: u64, bytes: &[u8]) -> Result<(), Failed> {
        match self.put(folder, number, bytes) {
            Ok(()) => Ok(()),
            Err(Failed) => {
                self.faults = self.faults.saturating_add(1);
                Err(Failed)
            }
        }
    }
}
