//! Files that pages are written to and read from, and the disk that opens them.

ghost use Rattle.std.specs.Prelude.{◌≡◌, Option, length, OnOk, OnErr};
ghost use Rattle.std.specs.Option.{option_map};
ghost use Rattle.host_io.specs.PageFile.{FileBytes, SpoilsPage, GivesPageAt, written_at};

use std::fs::{File, OpenOptions};
use std::os::unix::fs::FileExt;
use std::rt::Files;
use xk_base::Failed;

/// An open file that pages of 4096 bytes are written to and read from.
pub trait PageFile {
    /// Where it is told: the bytes of the file.
    ghost bytes: { Self → Option FileBytes };

    /// Writes a page at an offset in bytes. After a failure any bytes may stand there, and all
    /// others are as they were.
    fn write_page(&mut self, page: &[u8], at: u64) -> Result<(), Failed>
        requires whole { length page.now ≡ 4096 }
        ensures written { OnOk result (bytes self.new ≡ option_map (λ file. written_at file at page.now) (bytes self.old)) }
        ensures spoilt { OnErr result (SpoilsPage (bytes self.old) (bytes self.new) at) };

    /// Reads the page at an offset in bytes. It changes nothing.
    fn read_page(&mut self, into: &mut [u8], at: u64) -> Result<(), Failed>
        requires whole { length into.old ≡ 4096 }
        ensures read { OnOk result (GivesPageAt (bytes self.old) at into.new) }
        ensures same { bytes self.new ≡ bytes self.old };
}

/// Where files are opened by their names.
pub trait Disk {
    type File: PageFile + Drop;

    /// Opens the file of that name, or makes it, for reading and writing. What it holds stays.
    fn open(&self, name: &str) -> Result<Self::File, Failed>;
}

/// A file of the machine that runs the program. It tells no content.
#[derive(Drop)]
pub struct DiskFile<F: FileExt + Drop> {
    file: F,
}

impl<F: FileExt + Drop> PageFile for DiskFile<F> {
    ghost use Rattle.std.specs.Prelude.{None};

    ghost bytes = { λ file. None };

    // One system call, and another where the system took or gave a part of the page.
    fn write_page(&mut self, page: &[u8], at: u64) -> Result<(), Failed> {
        self.file.write_all_at(page, at).or(Err(Failed))
    }

    fn read_page(&mut self, into: &mut [u8], at: u64) -> Result<(), Failed> {
        self.file.read_exact_at(into, at).or(Err(Failed))
    }
}

/// The disk of the machine that runs the program.
#[derive(Drop)]
pub struct RealDisk<'a, R: Files> {
    rt: &'a R,
}

impl<'a, R: Files> RealDisk<'a, R> {
    /// A disk on which no file is open.
    pub fn new(rt: &'a R) -> RealDisk<'a, R> {
        RealDisk { rt }
    }
}

impl<'a, R: Files> Disk for RealDisk<'a, R>
where
    R::File: FileExt,
{
    type File = DiskFile<R::File>;

    fn open(&self, name: &str) -> Result<DiskFile<R::File>, Failed> {
        let mut how = OpenOptions::new();
        how.read(true).write(true).create(true);
        match how.open(self.rt, name) {
            Ok(file) => Ok(DiskFile { file }),
            Err(_) => Err(Failed),
        }
    }
}
