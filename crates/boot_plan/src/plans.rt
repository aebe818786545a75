//! What a plan says.

use xk_base::{Right, Row, Vpn};

/// The first pages of all processes of an image, and the room for pages.
#[derive(Debug, Drop)]
pub struct BootPlan {
    /// The physical address at which RAM starts.
    pub ram_start: u32,
    /// The frames of RAM, of 4096 bytes each.
    pub frames: u32,
    /// The slots of the swap store, of a page each.
    pub slots: u32,
    /// The processes, in the order of their pids from 2 on.
    pub procs: Row<ProcPlan>,
}

/// The first pages of one process.
#[derive(Debug, Drop)]
pub struct ProcPlan {
    /// The address of its first instruction.
    pub entry: u32,
    /// How many sections it has.
    pub sections: u32,
    /// The pages of its sections in their order, then the pages of its stack, then its interrupt
    /// page.
    pub pages: Row<PagePlan>,
}

/// A page with which a process starts: `len` bytes of the file from offset `from`, then zeros.
#[derive(Clone, Copy, Debug, PartialEq, Eq)]
pub struct PagePlan {
    /// Its virtual page number.
    pub vpn: Vpn,
    /// What its process may do there.
    pub right: Right,
    /// The offset in the file of its first byte, and 0 where it has no byte of the file.
    pub from: u32,
    /// How many bytes of the file it has, at most 4096.
    pub len: u32,
}
