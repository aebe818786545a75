//! The words of last-level entries.

ghost use Rattle.std.specs.Prelude.{◌≡◌, ◌+◌, ◌*◌, ◌<◌, ◌^◌, Some, MatchOption};
ghost use Rattle.sv32_space.specs.declared.sides.EntryKind.{EntryKind};
ghost use Rattle.sv32_space.specs.Spellings.{here_bits, out_bits, spelling, here_side, out_side, kind_at, IsKind, Spells};

use crate::sides::{EntryKind, Side};
use xk_base::Right;

// The low bits of a side of a page in a frame.
fn here_word(side: Side) -> u32
    ensures is { result ≡ here_bits side }
    ensures fits { result < 1024 }
{
    match side {
        Side::Own(Right { w: false, x: false }) => 0x0D3,
        Side::Own(Right { w: false, x: true }) => 0x0DB,
        Side::Own(Right { w: true, x: false }) => 0x0D7,
        Side::Own(Right { w: true, x: true }) => 0x0DF,
        Side::LentOut(Right { w: false, x: false }) => 0x1D3,
        Side::LentOut(Right { w: false, x: true }) => 0x1DB,
        Side::LentOut(Right { w: true, x: false }) => 0x3D3,
        Side::LentOut(Right { w: true, x: true }) => 0x3DB,
        Side::LentIn => 0x153,
        Side::MutOut { x: false } => 0x306,
        Side::MutOut { x: true } => 0x30E,
        Side::MutIn => 0x1D7,
    }
}

// The low bits of a side of a page that is out: without V, and with G.
fn out_word(side: Side) -> u32
    ensures is { result ≡ out_bits side }
    ensures fits { result < 1024 }
{
    (here_word(side) & !0x001) | 0x020
}

fn side_here(low: u32) -> Option<Side>
    ensures { result ≡ here_side low }
{
    match low {
        0x0D3 => Some(Side::Own(Right { w: false, x: false })),
        0x0DB => Some(Side::Own(Right { w: false, x: true })),
        0x0D7 => Some(Side::Own(Right { w: true, x: false })),
        0x0DF => Some(Side::Own(Right { w: true, x: true })),
        0x1D3 => Some(Side::LentOut(Right { w: false, x: false })),
        0x1DB => Some(Side::LentOut(Right { w: false, x: true })),
        0x3D3 => Some(Side::LentOut(Right { w: true, x: false })),
        0x3DB => Some(Side::LentOut(Right { w: true, x: true })),
        0x153 => Some(Side::LentIn),
        0x306 => Some(Side::MutOut { x: false }),
        0x30E => Some(Side::MutOut { x: true }),
        0x1D7 => Some(Side::MutIn),
        _ => None,
    }
}

fn side_out(low: u32) -> Option<Side>
    ensures { result ≡ out_side low }
{
    match low {
        0x0F2 => Some(Side::Own(Right { w: false, x: false })),
        0x0FA => Some(Side::Own(Right { w: false, x: true })),
        0x0F6 => Some(Side::Own(Right { w: true, x: false })),
        0x0FE => Some(Side::Own(Right { w: true, x: true })),
        0x1F2 => Some(Side::LentOut(Right { w: false, x: false })),
        0x1FA => Some(Side::LentOut(Right { w: false, x: true })),
        0x3F2 => Some(Side::LentOut(Right { w: true, x: false })),
        0x3FA => Some(Side::LentOut(Right { w: true, x: true })),
        0x172 => Some(Side::LentIn),
        0x326 => Some(Side::MutOut { x: false }),
        0x32E => Some(Side::MutOut { x: true }),
        0x1F6 => Some(Side::MutIn),
        _ => None,
    }
}

// What a word spells, by its low ten bits.
#[tactic(auto, unfolding(crate::specs::Spellings::kind_at))]
fn kind_by_bits(word: u32) -> Option<EntryKind>
    ensures { result ≡ kind_at word }
{
    if word == 0 {
        return Some(EntryKind::Free);
    }
    let low = word % 1024;
    let number = word / 1024;
    match (side_here(low), side_out(low)) {
        (Some(side), _) => Some(EntryKind::Here { side, ppn: number }),
        (None, Some(side)) => Some(EntryKind::Out { side, slot: number }),
        (None, None) => None,
    }
}

/// The word that spells an entry.
#[tactic(auto, using(crate::proofs::SpellingLemmas::kind_at_spelling))]
pub fn entry_of(k: EntryKind) -> u32
    requires { IsKind k }
    ensures is { result ≡ spelling k }
    ensures inverse { kind_at result ≡ Some k }
{
    match k {
        EntryKind::Free => 0,
        EntryKind::Here { side, ppn } => ppn * 1024 + here_word(side),
        EntryKind::Out { side, slot } => slot * 1024 + out_word(side),
    }
}

/// What a word spells; `None` exactly for a word that is no spelling.
#[tactic(auto, using(crate::proofs::SpellingLemmas::kind_at_found, crate::proofs::SpellingLemmas::kind_at_only))]
pub fn kind_of(word: u32) -> Option<EntryKind>
    ensures is { result ≡ kind_at word }
    ensures found { MatchOption result ((k : EntryKind) → ¬ Spells k word) (λ k. Spells k word) }
    // Whatever spells the word is the answer: `kind_of` reads back what `entry_of` wrote.
    ensures only { (k : EntryKind) → Spells k word → result ≡ Some k }
{
    kind_by_bits(word)
}
