//! Numbers among the words.

ghost use Rattle.std.specs.Prelude.{◌≡◌, ◌≤◌, IfSome};
ghost use Rattle.xous_program.specs.Words.{number_within};

use event_text::read_digits;

/// The number that a word spells, if it is from `least` to `most`.
#[tactic(auto, unfolding(crate::specs::Words::number_within))]
pub fn read_number(word: &[u8], least: u32, most: u32) -> Option<u32>
    ensures value { result ≡ number_within least most word.now }
    ensures least { IfSome result (λ n. least ≤ n) }
    ensures most { IfSome result (λ n. n ≤ most) }
{
    let number = read_digits(word)?;
    if number < u64::from(least) || number > u64::from(most) {
        return None;
    }
    Some(number as u32)
}
