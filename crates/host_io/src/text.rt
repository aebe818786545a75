//! Lines of text, put together piece by piece.

ghost use Rattle.std.specs.Prelude.{◌≡◌, ◌+◌, ◌≤◌, ◌<◌, ◌++◌, length, decimal};
ghost use Rattle.arrayvec.specs.ArrayVec.{array_vec_len};
ghost use Rattle.trace_text.specs.Words.{hex_text, word_text};

use arrayvec::ArrayVec;
use itoa::Buffer;
use trace_text::word_digits;

/// A line. The longest, the usage line, has 192 bytes.
pub type Line = ArrayVec<u8, 256>;

/// Appends text for which there is room.
pub fn put(line: &mut Line, text: &[u8])
    requires { array_vec_len line.old + length text.now ≤ 256 }
    ensures text { line.new.items ≡ line.old.items ++ text.now }
    ensures len { array_vec_len line.new ≡ array_vec_len line.old + length text.now }
{
    match line.try_extend_from_slice(text) {
        Ok(()) => {}
        Err(_) => unreachable!(),
    }
}

/// Appends a number in decimal.
pub fn put_number(line: &mut Line, number: u32)
    requires { array_vec_len line.old + 10 ≤ 256 }
    ensures text { line.new.items ≡ line.old.items ++ decimal number }
    ensures len { array_vec_len line.new ≤ array_vec_len line.old + 10 }
{
    let mut digits = Buffer::new();
    put(line, digits.format(number).as_bytes());
}

/// Appends a word as eight hexadecimal digits.
pub fn put_word(line: &mut Line, word: u32)
    requires { array_vec_len line.old + 8 ≤ 256 }
    ensures text { line.new.items ≡ line.old.items ++ word_text word }
    ensures len { array_vec_len line.new ≡ array_vec_len line.old + 8 }
{
    put(line, &word_digits(word));
}

/// Appends the five lowest hexadecimal digits of a number.
pub fn put_five_digits(line: &mut Line, number: u32)
    requires { array_vec_len line.old + 5 ≤ 256 }
    ensures text { line.new.items ≡ line.old.items ++ hex_text 5 number }
    ensures len { array_vec_len line.new ≡ array_vec_len line.old + 5 }
{
    let digits = word_digits(number);
    put(line, &digits[3..]);
}
