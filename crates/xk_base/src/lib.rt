//! What all crates share: ids, limits, windows, error numbers, messages, registers, records and
//! lists.
#![tactic(auto)]

mod errors;
mod events;
mod ids;
pub mod limits;
mod messages;
mod pages;
mod records;
mod registers;
mod rows;
mod user_memory;
mod windows;

pub use errors::{Failed, NoMemory, XousError};
pub use events::Event;
pub use ids::{Cid, Frame, Number, Pid, Place, Serial, Sid, Slot, ThreadId, Tid, Vpn};
pub use messages::{MemKind, Message, MsgKind};
pub use pages::{Access, LoanKind, Right, Stored, Width};
pub use records::{Log, Rec, What};
pub use registers::Regs;
pub use rows::Row;
pub use user_memory::UserMemory;
pub use windows::{Window, window_of};
