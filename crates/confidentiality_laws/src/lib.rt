//! Isolation: what a step doesn't know, which bytes it leaves, and two runs side by side. The theorems are those of `laws`; the law
//! here is the one under them, and the lemmas stand in `proofs/`. The function has no code; its contract is the law.
#![tactic(auto)]

mod calls;
mod differences;
mod side_by_side;

pub use calls::calls_depend_on_their_view;
pub use differences::causes_make_no_difference;
pub use side_by_side::histories_are_side_by_side;
