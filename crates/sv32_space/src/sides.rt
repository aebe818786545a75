//! What an entry of a last-level page table says.

use phys_pages::Seat;
use xk_base::Right;

/// Which side of a page an entry is.
#[derive(Clone, Copy, Debug, PartialEq, Eq)]
pub enum Side {
    /// At the page's home, without a loan.
    Own(Right),
    /// At the home of a page on shared loan, with its former right.
    LentOut(Right),
    /// Where the holder of a shared loan has it.
    LentIn,
    /// At the home of a page on exclusive loan. Its former right has `w`.
    MutOut { x: bool },
    /// Where the holder of an exclusive loan has it.
    MutIn,
}

/// What a word spells.
#[derive(Clone, Copy, Debug, PartialEq, Eq)]
pub enum EntryKind {
    Free,
    /// A page in a frame, or the console's, by its physical page number.
    Here { side: Side, ppn: u32 },
    /// A page that is out, at a slot of the swap store.
    Out { side: Side, slot: u32 },
}

/// What the entry of a place says: nothing, one side of the page at a seat, or the console's page.
#[derive(Clone, Copy, Debug, PartialEq, Eq)]
pub enum Entry {
    Free,
    At { side: Side, seat: Seat },
    /// The console's page, which may be loaded from; whether it may be stored to.
    OnConsole { w: bool },
}
