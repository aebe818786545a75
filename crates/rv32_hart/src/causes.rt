//! The causes of traps (RISC-V Privileged Architecture, 4.1.8).

/// A jump or a taken branch to an address that is not a multiple of 4.
pub const TARGET_MISALIGNED: u8 = 0;
/// A word that is no instruction.
pub const ILLEGAL_INSTRUCTION: u8 = 2;
/// EBREAK.
pub const BREAKPOINT: u8 = 3;
/// A load from an address that is not a multiple of its width.
pub const LOAD_MISALIGNED: u8 = 4;
/// A store to an address that is not a multiple of its width.
pub const STORE_MISALIGNED: u8 = 6;
/// A fetch where the process may not fetch.
pub const FETCH_PAGE_FAULT: u8 = 12;
/// A load where the process may not load.
pub const LOAD_PAGE_FAULT: u8 = 13;
/// A store where the process may not store.
pub const STORE_PAGE_FAULT: u8 = 15;
