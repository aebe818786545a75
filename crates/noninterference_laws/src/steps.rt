//! Integrity of every step and event: what may become of all that is another's. The functions have no code; their contracts are the
//! laws, and the lemmas stand in `proofs/`.

ghost use Rattle.noninterference_laws.specs.Causes.{AllKeepOthers, HistoriesKeepOthers};
ghost use Rattle.noninterference_laws.specs.Claimant.{EffectsKeepThreads, HistoriesKeepThreads, KillsKeepClaimants, StepsKeepPending, StepsKeepThreads, TimerStartsHandlers};
ghost use Rattle.noninterference_laws.specs.KeptOthers.{CallKeepsOthers};

/// **A call keeps what is another's.** Another process's thread is unchanged, or is answered with what the call brings or returns, or that
/// the server is gone that it waits for; its life, heap and connections are unchanged, and so are its claims; its servers stay, and gain
/// the message of the call, or lose those of a caller that dies; its pages stay with their rights and bytes, but for loans to the caller
/// that end or go on, and a page or an orphan of the caller that comes.
pub fn call_keeps_others()
    ensures { CallKeepsOthers }
{}

/// **Whatever comes next keeps what is another's.** An instruction leaves it; a system call, a fault, an end and a kill keep it, in the
/// same sense; a pick and the end of a turn touch nothing of it; and an interrupt starts at most the handler of the process that claimed it.
/// So it is at each moment of every history from a matched start.
pub fn all_keep_others()
    ensures causes { AllKeepOthers }
    ensures histories { HistoriesKeepOthers }
{}

/// **The timer's claimant keeps its thread.** A step of another process does to the interrupt thread of the process that claimed the
/// timer's interrupt no more than to any other thread, unless the timer is due in the step and the thread is Idle. Then it begins a
/// handler of its process, as by an event. Its pending numbers stay, unless the timer is due. A kill of another process keeps both.
pub fn claimant_keeps_its_thread()
    ensures effects { EffectsKeepThreads }
    ensures steps { StepsKeepThreads }
    ensures histories { HistoriesKeepThreads }
    ensures pending { StepsKeepPending }
    ensures kills { KillsKeepClaimants }
    ensures starts { TimerStartsHandlers }
{}
