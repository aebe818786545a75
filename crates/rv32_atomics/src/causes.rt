//! The causes of traps (RISC-V Privileged Architecture, 4.1.8).

/// A load from an address that is not a multiple of its width.
pub const LOAD_MISALIGNED: u8 = 4;
/// A store or an AMO at an address that is not a multiple of its width.
pub const STORE_MISALIGNED: u8 = 6;
/// A fetch where the process may not fetch.
pub const FETCH_PAGE_FAULT: u8 = 12;
/// A load where the process may not load.
pub const LOAD_PAGE_FAULT: u8 = 13;
/// A store or an AMO where the process may not store.
pub const STORE_PAGE_FAULT: u8 = 15;
