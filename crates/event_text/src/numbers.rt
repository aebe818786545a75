//! Numbers in decimal digits.

ghost use Rattle.std.specs.Prelude.{◌≡◌, ◌≤◌, true, false, IfSome, IsSome, IsNone};
ghost use Rattle.event_text.specs.Lines.{is_number, number_after, number_up_to, words_of};
ghost use Rattle.event_text.specs.EventFile.{only_number};

use crate::words::next_word;

/// The number that one to ten decimal digits spell, or None for every other text.
pub fn read_digits(word: &[u8]) -> Option<u64>
    ensures found { IsSome result → is_number word.now ≡ true }
    ensures none { IsNone result → is_number word.now ≡ false }
    ensures value { IfSome result (λ n. n ≡ number_after 0 word.now) }
{
    if !(1..=10).contains(&word.len()) {
        return None;
    }
    let mut number = 0u64;
    for &digit in word {
        if !digit.is_ascii_digit() {
            return None;
        }
        number = number * 10 + u64::from(digit - b'0');
    }
    Some(number)
}

/// The number that a word spells, if it is at most `most`.
#[tactic(auto, unfolding(crate::specs::Lines::number_up_to))]
pub(crate) fn read_number(word: &[u8], most: u32) -> Option<u32>
    ensures value { result ≡ number_up_to most word.now }
    ensures within { IfSome result (λ n. n ≤ most) }
{
    let number = read_digits(word)?;
    if number > u64::from(most) {
        return None;
    }
    Some(number as u32)
}

/// The number that the only word of a text spells, if it is at most `most`.
pub(crate) fn only_number(text: &[u8], most: u32) -> Option<u32>
    ensures value { result ≡ only_number most (words_of text.now) }
    ensures within { IfSome result (λ n. n ≤ most) }
{
    let (word, rest) = next_word(text)?;
    if next_word(rest).is_some() {
        return None;
    }
    read_number(word, most)
}
