//! The timer: its compare value, and a memory with the timer's page over it.
#![tactic(auto)]

mod device;
mod laws;
mod page;

pub use device::Timer;
pub use laws::view_is_memory;
pub use page::TimerView;
