//! Deadlocks. The definitions stand in `specs/` and the lemmas in `proofs/`; the function has no code, and its contract is the theorem.

ghost use Rattle.lifetime_laws.specs.Waiting.{DeadlockStays, DeadlocksLast};

/// **A deadlock lasts.** If no thread of a set of processes is Ready, and each message whose answer one waits for is at a server of that
/// set, then each thread of the set stays as it is, whatever other processes do. Only these could change that: a call that sends or
/// forwards to a server at which one of the threads receives, an interrupt that one of the processes claimed, and a kill of one.
pub fn deadlocks_last()
    ensures moments { DeadlockStays }
    ensures runs { DeadlocksLast }
{}
