//! Confidentiality: what a group of processes keeps inside is seen by nobody. Inside are the registers and the pcs of its threads, its
//! reservation, and the bytes of the pages that nobody else can load. The functions have no code; their contracts are the laws, and the
//! lemmas stand in `proofs/`.

ghost use Rattle.noninterference_laws.specs.Handing.{PagesAreEnough};
ghost use Rattle.noninterference_laws.specs.Inside.{InsideIsThere};
ghost use Rattle.noninterference_laws.specs.TwoInsides.{HistoriesKeepInside, InsideIsUnseen, RunsKeepInside};

/// **The inside is unseen.** From two states that are the same but for the inside of a group, the first of them matched, whatever comes
/// next is told alike and leads to two such states, where the group acts alike: its steps are one act in both, and what it hands over
/// holds the same.
pub fn inside_is_unseen()
    ensures { InsideIsUnseen }
{}

/// **Runs and histories keep it unseen.** Two runs of one list of causes, and two histories of one list of events, in which the group
/// acts alike at each moment, have the same records and the same states but for the inside; and the histories meet the limit alike.
pub fn runs_keep_the_inside()
    ensures runs { RunsKeepInside }
    ensures histories { HistoriesKeepInside }
{}

/// **What is handed over is known before.** Where a step of the group is one act in both states, and the pages that this act hands over
/// hold the same in both, the group acts alike; and the death of a process hands over alike where the pages on loan to its servers do.
pub fn handed_pages_are_enough()
    ensures { PagesAreEnough }
{}

/// **There is an inside.** Other registers, another pc, and other bytes of an own page that isn't on loan make states that are the same
/// but for the inside: so the laws here speak of two different states.
pub fn registers_and_own_bytes_are_inside()
    ensures { InsideIsThere }
{}
