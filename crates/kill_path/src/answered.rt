//! The set of threads that are to be answered.

ghost use Rattle.std.specs.Prelude.{◌≡◌, ◌+◌, ◌<◌, ◌≤◌, ◌==◌, ℕ, true, false, IfNone, IfSome};
ghost use Rattle.std.specs.Int.{bit_at};
ghost use Rattle.xk_base.specs.Tables.Circle.{is_pid, is_thread_id, same_thread};
ghost use Rattle.xk_base.specs.Tables.Counting.{put_at};
ghost use Rattle.xk_base.specs.declared.limits.TheConstants.{PROCESS_LIMIT, TID_LIMIT};
ghost use Rattle.kill_path.specs.ThreadSets.{nobody, thread_of};

use xk_base::limits::PROCESS_LIMIT;
use xk_base::{Pid, ThreadId};

/// The least bit of the word from this one on.
fn least_bit_from(word: u32, from: u8) -> Option<u8>
    requires { from ≤ TID_LIMIT + 1 }
    ensures none { IfNone result ((bit : ℕ) → from ≤ bit → (bit_at word bit == 1) ≡ false) }
    ensures found { IfSome result (λ least. (from ≤ least) × (least ≤ TID_LIMIT) × ((bit_at word least == 1) ≡ true)) }
    ensures first { IfSome result (λ least. (bit : ℕ) → from ≤ bit → bit < least → (bit_at word bit == 1) ≡ false) }
{
    // Of 64 bits, since the shift may be by 32.
    let left = word as u64 >> from;
    if left == 0 {
        None
    } else {
        Some(from + left.trailing_zeros() as u8)
    }
}

/// Threads that are to be answered: each process has a word, pid 2 the first, of which bit `tid` tells of its thread
/// with that tid.
#[derive(Drop)]
pub(crate) struct Answered {
    words: [u32; PROCESS_LIMIT as usize],
}

impl Answered {
    ghost use Rattle.kill_path.specs.Noted.{noted};

    /// Nobody is to be answered.
    pub(crate) fn new() -> Answered
        ensures { noted result ≡ nobody }
    {
        Answered {
            words: [0; PROCESS_LIMIT as usize],
        }
    }

    /// The thread is to be answered too.
    pub(crate) fn note(&mut self, id: ThreadId)
        requires { is_thread_id PROCESS_LIMIT id ≡ true }
        ensures { noted self.new ≡ put_at same_thread (noted self.old) id true }
    {
        self.words[id.pid.0 as usize - 2] |= 1 << id.tid.0;
    }

    /// The least tid, from this one on, of the threads of the process that are to be answered.
    pub(crate) fn least_from(&self, pid: Pid, from: u8) -> Option<u8>
        requires pid { is_pid PROCESS_LIMIT pid.0 ≡ true }
        requires some { 1 ≤ from }
        requires few { from ≤ TID_LIMIT + 1 }
        ensures none { IfNone result ((tid : ℕ) → from ≤ tid → noted self.now (thread_of pid tid) ≡ false) }
        ensures found { IfSome result (λ least. (from ≤ least) × (least ≤ TID_LIMIT) × (noted self.now (thread_of pid least) ≡ true)) }
        ensures first { IfSome result (λ least. (tid : ℕ) → from ≤ tid → tid < least → noted self.now (thread_of pid tid) ≡ false) }
    {
        least_bit_from(self.words[pid.0 as usize - 2], from)
    }
}
