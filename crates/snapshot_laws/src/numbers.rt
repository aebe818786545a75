//! The numbers of the machine that words hold stay words. The functions have no code; their contracts are the laws.

ghost use Rattle.snapshot_laws.specs.KeepingWords.{AllKeepWords};

/// Whatever leads from a state to the next keeps registers, messages, claims, the timer's compare value and the reserved address words,
/// and pages whole: a step, a pick, an interrupt, a kill, the end of a turn.
pub fn all_keep_words()
    ensures { AllKeepWords }
{}
