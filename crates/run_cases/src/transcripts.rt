//! Lines of transcripts, written short.

use crate::wrong::Wrong;

/// A call and a reply have eight words.
const WORDS: usize = 8;

/// The digits of a word of zero.
const ZEROS: [u8; 8] = *b"00000000";

/// Appends a line and a line feed. The words of a call and of a reply stand in the line without their first zeros, and
/// without the words of zeros behind the last other one.
pub fn push_line(text: &mut Vec<u8>, line: &str) -> Result<(), Wrong> {
    let mut are_words = false;
    let mut count: usize = 0;
    let mut is_first = true;
    for part in line.split(' ') {
        if !is_first {
            text.push(b' ')?;
        }
        is_first = false;
        if are_words {
            count = WORDS.min(count) + 1;
            text.extend_from_slice(&ZEROS[part.len().min(8)..])?;
        } else {
            are_words = part == "call" || part == "reply";
        }
        text.extend_from_slice(part.as_bytes())?;
    }
    if are_words {
        for _ in count..WORDS {
            text.extend_from_slice(b" 00000000")?;
        }
    }
    text.push(b'\n')?;
    Ok(())
}
