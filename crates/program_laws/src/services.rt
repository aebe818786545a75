//! A service may be exchanged: two image files that differ in nothing but what they give the pages of a group of processes, their code
//! too, play the same events alike, as long as the group acts alike. The functions have no code; their contracts are the laws, and the
//! lemmas stand in `proofs/`.

ghost use Rattle.program_laws.specs.Exchanged.{StartsAreAlike, HistoriesAreAlike, OutputsAreAlike};

/// **Only the inside is exchanged.** One plan with two files, which give the pages of every process outside the group the same bytes, has
/// two starts that are the same but for the inside of the group.
pub fn exchanged_starts_are_alike()
    ensures { StartsAreAlike }
{}

/// **A service may be exchanged.** From these two starts, over one list of events in which the group acts alike at each moment, the
/// records are the same, the limit is met alike, and the last states are the same but for the inside. So `trace`, `run` and `ledger` write
/// the same of an event file, and it ends in one way.
pub fn exchanged_services_tell_alike()
    ensures histories { HistoriesAreAlike }
    ensures outputs { OutputsAreAlike }
{}
