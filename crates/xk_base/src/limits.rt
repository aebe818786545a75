//! The limits of the machine. Each crate names them from here.

ghost use Rattle.xk_base.specs.Numbers.Limits.{AreLimits};

/// Bytes of a page and of a frame.
pub const PAGE_SIZE: u32 = 4096;

/// Processes of an image; their pids are 2 to `PROCESS_LIMIT + 1`.
pub const PROCESS_LIMIT: u32 = 64;

/// Processes of an image of version 1.
pub const FIRST_PROCESS_LIMIT: u32 = 32;

/// The greatest thread id of a process; ids begin at 1, the interrupt thread.
pub const TID_LIMIT: u8 = 31;

/// Servers that are alive at one time.
pub const SERVER_LIMIT: u32 = 64;

/// Messages of one server: queued, held and to be forgotten, together.
pub const MESSAGE_LIMIT: u32 = 128;

/// Connections of a process; connection numbers are 2 to `CONNECTION_LIMIT + 1`.
pub const CONNECTION_LIMIT: u32 = 32;

/// Interrupt numbers are below this.
pub const INTERRUPT_LIMIT: u8 = 32;

/// Table frames of a process: the root, and four tables for each of the five windows.
pub const TABLE_FRAMES: u32 = 21;

/// Frames of RAM: 64 MiB in pages.
pub const FRAME_LIMIT: u32 = 16_384;

/// Slots of the swap store.
pub const SLOT_LIMIT: u32 = 16_384;

/// Bytes of an image file: 64 MiB.
pub const IMAGE_LIMIT: u32 = 67_108_864;

/// Sections of one process.
pub const SECTION_LIMIT: u32 = 32;

/// Bytes of a line of an event file, without its line feed.
pub const EVENT_LINE_LIMIT: u32 = 64;

/// Bytes of an event file: 1 GiB.
pub const EVENT_FILE_LIMIT: u32 = 1_073_741_824;

/// The greatest step limit.
pub const STEP_LIMIT: u32 = 4_000_000_000;

/// The step limit where none is given.
pub const DEFAULT_STEPS: u32 = 10_000_000;

/// Records of one step or event.
pub const RECORD_LIMIT: u32 = 2_048;

/// The physical address of the console's page, which is also where RAM ends at the latest.
pub const CONSOLE_ADDRESS: u32 = 0xF000_0000;

/// The timer's page in the memory of the process that has claimed interrupt `TIMER_INTERRUPT`, by its
/// virtual address.
pub const TIMER_ADDRESS: u32 = 0xF000_1000;

/// The interrupt that the timer raises.
pub const TIMER_INTERRUPT: u8 = 20;

/// Law: each limit is the number that the definitions mean by it.
pub fn limits_are_pinned()
    ensures { AreLimits }
{}
