//! What system calls do, as data, and what they depend on: the effects of each, the verdict on it, and the view that decides it. The
//! definitions stand in `specs/`; the functions have no code, and their contracts are the laws. That calls depend on their view alone is
//! the law `calls_depend_on_their_view` of `confidentiality_laws`.
#![tactic(auto)]

ghost use Rattle.call_effects.specs.Deciding.{CallsAreMeant};
ghost use Rattle.call_effects.specs.Footprints.{CallsLeaveTheRest};

/// What comes of each system call is what the verdict on it means: its tests in their order, and then its effects in theirs.
pub fn calls_are_meant()
    ensures { CallsAreMeant }
{}

/// A served call changes no part of the machine but those that the table of parts names for its number: so only ClaimInterrupt,
/// FreeInterrupt and TerminateProcess touch claims, only the last two pending numbers and the timer, and only Yield moves the cursor.
pub fn calls_leave_the_rest()
    ensures { CallsLeaveTheRest }
{}
