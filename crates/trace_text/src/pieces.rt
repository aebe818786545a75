//! Pieces of a line, each appended to a buffer that has room for it.

ghost use Rattle.std.specs.Prelude.{◌≡◌, ◌+◌, ◌≤◌, ◌++◌, length, decimal, codes};
ghost use Rattle.arrayvec.specs.ArrayVec.{array_vec_len};
ghost use Rattle.trace_text.specs.Lines.{thread_text};
ghost use Rattle.trace_text.specs.Words.{byte_text, word_text, words_text};

use crate::digits::word_digits;
use arrayvec::ArrayVec;
use itoa::Buffer;
use xk_base::ThreadId;

/// A line that is being written; the longest that is written has fewer bytes than fit.
pub type Line = ArrayVec<u8, 160>;

/// Appends the bytes.
pub fn append(out: &mut Line, bytes: &[u8])
    requires { array_vec_len out.old + length bytes.now ≤ 160 }
    ensures text { out.new.items ≡ out.old.items ++ bytes.now }
    ensures len { array_vec_len out.new ≡ array_vec_len out.old + length bytes.now }
{
    match out.try_extend_from_slice(bytes) {
        Ok(()) => {}
        Err(_) => unreachable!(),
    }
}

/// Appends the number in decimal.
pub fn append_decimal(out: &mut Line, n: u32)
    requires { array_vec_len out.old + 10 ≤ 160 }
    ensures text { out.new.items ≡ out.old.items ++ decimal n }
    ensures len { array_vec_len out.new ≤ array_vec_len out.old + 10 }
{
    let mut buffer = Buffer::new();
    append(out, buffer.format(n).as_bytes());
}

/// Appends the byte as two hexadecimal digits.
#[tactic(auto, using(crate::proofs::DigitLemmas::encoded_byte))]
pub fn append_byte(out: &mut Line, byte: u8)
    requires { array_vec_len out.old + 2 ≤ 160 }
    ensures text { out.new.items ≡ out.old.items ++ byte_text byte }
    ensures len { array_vec_len out.new ≡ array_vec_len out.old + 2 }
{
    let mut pair = [0u8; 2];
    match hex::encode_to_slice([byte].as_slice(), &mut pair) {
        Ok(()) => append(out, &pair),
        Err(_) => unreachable!(),
    }
}

/// Appends the word as eight hexadecimal digits.
pub fn append_word(out: &mut Line, word: u32)
    requires { array_vec_len out.old + 8 ≤ 160 }
    ensures text { out.new.items ≡ out.old.items ++ word_text word }
    ensures len { array_vec_len out.new ≡ array_vec_len out.old + 8 }
{
    append(out, &word_digits(word));
}

/// Appends each word after a space.
pub fn append_words(out: &mut Line, words: &[u32; 8])
    requires { array_vec_len out.old + 72 ≤ 160 }
    ensures text { out.new.items ≡ out.old.items ++ words_text words.now }
    ensures len { array_vec_len out.new ≡ array_vec_len out.old + 72 }
{
    for word in words {
        append(out, b" ");
        append_word(out, *word);
    }
}

/// Appends the thread as its process and its number there, as `2.2`.
pub fn append_thread(out: &mut Line, thread: ThreadId)
    requires { array_vec_len out.old + 21 ≤ 160 }
    ensures text { out.new.items ≡ out.old.items ++ thread_text thread }
    ensures len { array_vec_len out.new ≤ array_vec_len out.old + 21 }
{
    append_decimal(out, thread.pid.0 as u32);
    append(out, b".");
    append_decimal(out, thread.tid.0 as u32);
}
