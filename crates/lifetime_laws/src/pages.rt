//! The life of a page. It says why a page was allocated, what was done to it and by which messages, and why it was released. The definitions
//! stand in `specs/` and the lemmas in `proofs/`; the functions have no code, and their contracts are the theorems.

ghost use Rattle.lifetime_laws.specs.Bytes.{OnlyStoresChangeBytes};
ghost use Rattle.lifetime_laws.specs.Counts.{EveryHistoryBalances, EveryRunBalances};
ghost use Rattle.lifetime_laws.specs.Lives.{EveryHistoryLives, EveryMomentLives, EveryPageLives, EveryRunLives};
ghost use Rattle.lifetime_laws.specs.Owners.{EveryOwnerBalances, GainsByMoves, LosesByMoves};
ghost use Rattle.lifetime_laws.specs.Planted.{DoublingIsRefused, ForgettingIsRefused, LosingIsRefused, MisplacingIsRefused};

/// **Pages are neither lost nor doubled.** Each page that stands at the end of a run stood at its start, or was allocated in one moment of
/// it; each that stood at the start stands at the end, or was released in one moment. Between these it is one page, and no two are one. Each
/// moment of its life says what is done to it, by whom and by which message. So it is of a page that stands in any state between.
pub fn pages_are_neither_lost_nor_doubled()
    ensures moments { EveryMomentLives }
    ensures runs { EveryRunLives }
    ensures pages { EveryPageLives }
    ensures histories { EveryHistoryLives }
{}

/// The pages at the start of a run and those allocated in it are as many as those that stand at its end and those released in it.
pub fn pages_add_up()
    ensures runs { EveryRunBalances }
    ensures histories { EveryHistoryBalances }
{}

/// A process gains a page by its own allocation or by another's move to it, and loses it by a release, by its own move, or by its death while the
/// page is on loan. What it owned at the start of a run and what it gained is what it owns at the end and what it lost.
pub fn owners_change_by_moves()
    ensures gains { GainsByMoves }
    ensures loses { LosesByMoves }
    ensures runs { EveryOwnerBalances }
{}

/// Only a store of an instruction changes the bytes of a page: whoever gets it gets the bytes that its last process left.
pub fn only_stores_change_bytes()
    ensures { OnlyStoresChangeBytes }
{}

/// The law of one moment refuses wrong kernels: a move that leaves a page where it was, too; a kill that forgets a page of a living process, or
/// one whose message a server still has; and an orphan at a place to which its page wasn't lent.
pub fn wrong_kernels_are_refused()
    ensures doubling { DoublingIsRefused }
    ensures forgetting { ForgettingIsRefused }
    ensures losing { LosingIsRefused }
    ensures misplacing { MisplacingIsRefused }
{}
