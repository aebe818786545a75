//! The words of a line.

ghost use Rattle.std.specs.Prelude.{◌≡◌, ◌≢◌, ◌<◌, [], ◌∷◌, ℕ, length, slice_index, IfSome, IfNone};
ghost use Rattle.event_text.specs.Lines.{words_of, without_last};

/// The text without the byte at its end, if it ends with it.
pub(crate) fn without_last(text: &[u8], byte: u8) -> &[u8]
    ensures { result.now ≡ without_last byte text.now }
{
    text.strip_suffix([byte].as_slice()).unwrap_or(text)
}

/// Where the first byte is that is no space.
fn word_start(text: &[u8]) -> Option<usize>
    ensures bound { IfSome result (λ i. i < length text.now) }
    ensures found { IfSome result (λ i. slice_index text.now i ≢ 32) }
    ensures first { IfSome result (λ i. (k : ℕ) → k < i → slice_index text.now k ≡ 32) }
    ensures none { IfNone result ((k : ℕ) → k < length text.now → slice_index text.now k ≡ 32) }
{
    text.iter().position(|byte| *byte != b' ')
}

/// The text from its first byte on that is no space.
fn skip_spaces(text: &[u8]) -> &[u8]
    ensures same { words_of result.now ≡ words_of text.now }
    ensures begins { 0 < length result.now → slice_index result.now 0 ≢ 32 }
{
    match word_start(text) {
        Some(start) => &text[start..],
        None => &text[text.len()..],
    }
}

/// Where the first space is.
fn word_end(text: &[u8]) -> Option<usize>
    ensures bound { IfSome result (λ i. i < length text.now) }
    ensures found { IfSome result (λ i. slice_index text.now i ≡ 32) }
    ensures first { IfSome result (λ i. (k : ℕ) → k < i → slice_index text.now k ≢ 32) }
    ensures none { IfNone result ((k : ℕ) → k < length text.now → slice_index text.now k ≢ 32) }
{
    text.iter().position(|byte| *byte == b' ')
}

/// The first word and the text after it, or None where no word is left.
#[tactic(auto, using(crate::proofs::LineLemmas::words_only, crate::proofs::LineLemmas::words_none))]
pub(crate) fn next_word(text: &[u8]) -> Option<(&[u8], &[u8])>
    ensures none { IfNone result (words_of text.now ≡ []) }
    ensures words { IfSome result (λ w. words_of text.now ≡ w.0.now ∷ words_of w.1.now) }
    ensures word { IfSome result (λ w. 0 < length w.0.now) }
{
    let rest = skip_spaces(text);
    if rest.is_empty() {
        return None;
    }
    match word_end(rest) {
        Some(end) => Some((&rest[..end], &rest[end + 1..])),
        None => Some((rest, &rest[rest.len()..])),
    }
}
