//! The numbers of the whole machine: the first part of a state.

ghost use Rattle.std.specs.Prelude.{◌≡◌};
ghost use Rattle.suspend_image.specs.Reading.{Gives};
ghost use Rattle.suspend_image.specs.Rows.{numbers_at, timer_at, reserved_at};

use crate::reading::broken::Broken;
use crate::reading::words::{GREATEST, word, word_if, word_in};
use xk_base::limits::{PROCESS_LIMIT, STEP_LIMIT, TID_LIMIT};

/// What a state counts, and whose turn it is.
#[derive(Clone, Copy, Debug)]
pub struct Numbers {
    pub cap: u32,
    pub n: u32,
    pub steps: u32,
    pub cursor_pid: u32,
    pub cursor_tid: u32,
    pub next_number: u32,
    pub next_serial: u32,
}

/// Whether the timer is armed, and for which number of steps.
#[derive(Clone, Copy, Debug)]
pub struct Timer {
    pub armed: u32,
    pub compare: u32,
}

/// Whether an address is reserved, by which thread, and which.
#[derive(Clone, Copy, Debug)]
pub struct Reserved {
    pub reserved: u32,
    pub pid: u32,
    pub tid: u32,
    pub address: u32,
}

/// Reads the numbers at the front of a state, and returns the rest.
/// `Broken` if one is missing or out of its bounds.
#[tactic(auto, unfolding(crate::specs::Rows::numbers_at))]
pub fn front_numbers(bytes: &[u8]) -> Result<(Numbers, &[u8]), Broken>
    ensures { Gives (λ x. (x.0, x.1.now)) result (numbers_at bytes.now) }
{
    let (cap, rest) = word(bytes)?;
    let (n, rest) = word_in(1, PROCESS_LIMIT as u64, rest)?;
    let (steps, rest) = word_in(0, STEP_LIMIT as u64, rest)?;
    let (cursor_pid, rest) = word_in(2, n as u64 + 1, rest)?;
    let (cursor_tid, rest) = word_in(1, TID_LIMIT as u64, rest)?;
    let (next_number, rest) = word(rest)?;
    let (next_serial, rest) = word(rest)?;
    let numbers = Numbers {
        cap,
        n,
        steps,
        cursor_pid,
        cursor_tid,
        next_number,
        next_serial,
    };
    Ok((numbers, rest))
}

/// Reads the timer, and returns the rest.
/// `Broken` if a word is missing or out of its bounds.
#[tactic(auto, unfolding(crate::specs::Rows::timer_at))]
pub fn front_timer(bytes: &[u8]) -> Result<(Timer, &[u8]), Broken>
    ensures { Gives (λ x. (x.0, x.1.now)) result (timer_at bytes.now) }
{
    let (armed, rest) = word_in(0, 1, bytes)?;
    let (compare, rest) = word_if(armed == 1, 0, GREATEST, rest)?;
    Ok((Timer { armed, compare }, rest))
}

/// Reads the reservation of a machine of `n` processes, and returns the rest.
/// `Broken` if a word is missing or out of its bounds.
#[tactic(auto, unfolding(crate::specs::Rows::reserved_at))]
pub fn front_reserved(n: u32, bytes: &[u8]) -> Result<(Reserved, &[u8]), Broken>
    ensures { Gives (λ x. (x.0, x.1.now)) result (reserved_at n bytes.now) }
{
    let (reserved, rest) = word_in(0, 1, bytes)?;
    let (pid, rest) = word_if(reserved == 1, 2, n as u64 + 1, rest)?;
    let (tid, rest) = word_if(reserved == 1, 1, TID_LIMIT as u64, rest)?;
    let (address, rest) = word_if(reserved == 1, 0, GREATEST, rest)?;
    let reserved = Reserved {
        reserved,
        pid,
        tid,
        address,
    };
    Ok((reserved, rest))
}
