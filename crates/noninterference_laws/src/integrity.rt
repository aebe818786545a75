//! Integrity: what a step of one process leaves of all that is another's. The functions have no code; their contracts are the laws,
//! and the lemmas stand in `proofs/`.

ghost use Rattle.noninterference_laws.specs.Integrity.{InstructionLeavesOthers, StoredByOneAlone};

/// **Who may write a page sees it alone.** A page that is stored to at one place and loaded at another is at one place.
pub fn page_is_stored_by_one_alone()
    ensures { StoredByOneAlone }
{}

/// **An instruction leaves all that is another's**: where pages are, their rights and loans; each byte that another process can load at
/// that moment; each thread of another, but for tid 1 of the process that claimed the timer's interrupt; all processes, servers,
/// messages and claims; and which numbers are pending, but for those of that process.
pub fn instruction_leaves_others()
    ensures { InstructionLeavesOthers }
{}
