//! What the row of tags of an image says.

use xk_base::Row;

/// All flags of a section: 1, 2, 4, 8 and 16.
pub(crate) const KNOWN_FLAGS: u8 = 31;

/// The arguments of an image.
#[derive(Debug, Drop)]
pub struct Args {
    /// The size of the row of tags in words of four bytes.
    pub words: u32,
    /// The version of the image, 1 or 2.
    pub version: u32,
    /// The physical address at which RAM starts.
    pub ram_start: u32,
    /// The size of RAM in bytes.
    pub ram_size: u32,
    /// The name of RAM.
    pub ram_name: [u8; 4],
    /// The number of slots of the swap store, which only an image of version 2 can give.
    pub slots: Option<u32>,
    /// The processes, in the order of their pids from 2 on.
    pub procs: Row<ProcArgs>,
    /// The names of processes, which have no effect on a run.
    pub names: Row<ProcName>,
}

/// One process.
#[derive(Debug, Drop)]
pub struct ProcArgs {
    /// The offset in the file at which the bytes of its sections start.
    pub load: u32,
    /// The address of its first instruction.
    pub entry: u32,
    /// The check number of the bytes of its sections in the file, given exactly in version 2.
    pub check: Option<u16>,
    /// Its sections, one to 32.
    pub sections: Row<Section>,
}

/// A piece of a process's memory.
#[derive(Clone, Copy, Debug, PartialEq, Eq)]
pub struct Section {
    /// Its virtual address.
    pub addr: u32,
    /// Its size in bytes, below 2^24.
    pub size: u32,
    /// The sum of 1 for writable, 2 for zero-filled and 4 for executable; 8 and 16 are kept and
    /// have no effect.
    pub flags: u8,
}

/// The name of a process.
#[derive(Debug, Drop)]
pub struct ProcName {
    pub pid: u32,
    pub name: Row<u8>,
}
