//! What a process keeps that shares nothing with others. The definitions stand in `specs/` and the lemmas in `proofs/`; the function has no
//! code, and its contract is the theorem.

ghost use Rattle.lifetime_laws.specs.Untouched.{OthersLeaveIt, RunsOfOthersLeaveIt};

/// **A process that shares nothing is untouched.** Without a server, a message that it waits for, a page on loan and a claim, a process keeps
/// every page, byte, register and thread until its own next step, or until a kill names it; and it shares nothing until then.
pub fn processes_apart_are_untouched()
    ensures moments { OthersLeaveIt }
    ensures runs { RunsOfOthersLeaveIt }
{}
