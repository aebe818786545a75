//! The tids of some of the threads of a process.

ghost use Rattle.std.specs.Prelude.{◌≡◌, ◌≤◌, ◌<◌, ◌+◌, ℕ, true, false, IfSome, IfNone};
ghost use Rattle.xk_base.specs.declared.limits.TheConstants.{TID_LIMIT};
ghost use Rattle.thread_table.specs.TidSets.{no_tids, has_tid, with_tid, without_tid, with_if};

use xk_base::Tid;

/// A set of tids: bit `tid` of the word says whether it has the tid.
#[derive(Clone, Copy, Debug)]
pub(crate) struct Tids(u32);

impl Tids {
    /// The set without a tid.
    pub(crate) fn none() -> Tids
        ensures { result ≡ no_tids }
    {
        Tids(0)
    }

    /// Whether the set has the tid.
    pub(crate) fn has(self, tid: Tid) -> bool
        requires { tid.0 ≤ TID_LIMIT }
        ensures { result ≡ has_tid self tid.0 }
    {
        (self.0 >> tid.0) & 1 == 1
    }

    /// The least tid of the set from this one on.
    pub(crate) fn least_from(self, from: u8) -> Option<u8>
        requires { from ≤ TID_LIMIT + 1 }
        ensures none { IfNone result ((tid : ℕ) → from ≤ tid → has_tid self tid ≡ false) }
        ensures found { IfSome result (λ least. (from ≤ least) × (least ≤ TID_LIMIT) × (has_tid self least ≡ true)) }
        ensures first { IfSome result (λ least. (tid : ℕ) → from ≤ tid → tid < least → has_tid self tid ≡ false) }
    {
        // Of 64 bits, since the shift may be by 32.
        let left = self.0 as u64 >> from;
        if left == 0 {
            None
        } else {
            Some(from + left.trailing_zeros() as u8)
        }
    }

    /// The set with the tid besides.
    pub(crate) fn with(self, tid: Tid) -> Tids
        requires { tid.0 ≤ TID_LIMIT }
        ensures { result ≡ with_tid self tid.0 }
    {
        Tids(self.0 | (1 << tid.0))
    }

    /// The set without the tid.
    pub(crate) fn without(self, tid: Tid) -> Tids
        requires { tid.0 ≤ TID_LIMIT }
        ensures { result ≡ without_tid self tid.0 }
    {
        Tids(self.0 & !(1 << tid.0))
    }

    /// The set with the tid exactly where that is so, and with its other tids.
    pub(crate) fn with_if(self, tid: Tid, has: bool) -> Tids
        requires { tid.0 ≤ TID_LIMIT }
        ensures { result ≡ with_if self tid.0 has }
    {
        if has {
            self.with(tid)
        } else {
            self.without(tid)
        }
    }
}
