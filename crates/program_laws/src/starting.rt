//! Each state of each run that begins lawfully can be written as state bytes. The functions have no code; their contracts are the laws.

ghost use Rattle.program_laws.specs.Starting.{BeginsSpellable, EveryLastSpellable, EveryStateSpellable};

/// State bytes spell the state in which a run begins: the start of a lawful plan of a file's bytes, whose processes can start at entries
/// that are words, and the state that a file spells from which a run can go on.
pub fn beginnings_are_spellable()
    ensures { BeginsSpellable }
{}

/// .. and each state of every history from there, with a limit up to 4,000,000,000.
pub fn every_state_is_spellable()
    ensures moments { EveryStateSpellable }
    ensures last { EveryLastSpellable }
{}
