//! Each state that a run comes to can be written as state bytes. The functions have no code; their contracts are the laws.

ghost use Rattle.snapshot_laws.specs.Keeping.{AllKeepReserved, AllKeepSize, AllKeepSpellable, FilesSpellable};
ghost use Rattle.snapshot_laws.specs.Keeping.{LastSpellable, MomentsSpellable};
ghost use Rattle.snapshot_laws.specs.Spelled.{BytesTellStates, SpellableSpelled, SpelledBySaved};

/// Whatever leads from a state to the next, a step, a pick, an interrupt, a kill or the end of a turn, there are as many processes as
/// before, and as much room for pages.
pub fn all_keep_size()
    ensures { AllKeepSize }
{}

/// .. and the reservation is that of an id that a thread can have.
pub fn all_keep_reserved()
    ensures { AllKeepReserved }
{}

/// Whatever leads from a state that state bytes spell to the next, they spell that too, while no more than 4,000,000,000 steps are done.
pub fn all_keep_spellable()
    ensures { AllKeepSpellable }
{}

/// State bytes spell each state of a history from a state that they spell, with a limit up to 4,000,000,000.
pub fn histories_stay_spellable()
    ensures moments { MomentsSpellable }
    ensures last { LastSpellable }
{}

/// State bytes spell the state that is read of a file, where the machine can be in it and it has room for no more than 32,768 pages.
pub fn file_state_is_spellable()
    ensures { FilesSpellable }
{}

/// Two states that files spell are one where their state bytes are the same; a file that spells a state has its state bytes and no
/// others. Nothing is asked of the numbers of a state but what the form of state bytes asks. State bytes spell each state that can be saved.
pub fn bytes_tell_states()
    ensures told { BytesTellStates }
    ensures saved { SpelledBySaved }
    ensures spellable { SpellableSpelled }
{}
