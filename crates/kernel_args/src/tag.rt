//! The tag at the front of bytes.

ghost use Rattle.std.specs.Prelude.{◌≡◌, None, MatchOption};
ghost use Rattle.kernel_args.specs.Tags.{front_tag as front_tag_of};
ghost use Rattle.kernel_args.specs.Reading.{tag_of, FrontTag};

use byteorder::{ByteOrder, LittleEndian};

/// A tag where it lies in an image.
#[derive(Clone, Copy, Debug)]
pub struct TagAt<'a> {
    /// Four bytes.
    pub name: &'a [u8],
    /// The check number that the tag carries.
    pub check: u16,
    pub contents: &'a [u8],
}

/// The whole tag at the front of the bytes and the bytes after it, or None where none is there.
pub fn front_tag(bytes: &[u8]) -> Option<(TagAt<'_>, &[u8])>
    ensures { MatchOption result (front_tag_of bytes.now ≡ None) (λ r. FrontTag bytes.now (tag_of r.0) r.1.now) }
{
    if bytes.len() < 8 {
        return None;
    }
    let size = 4 * LittleEndian::read_u16(&bytes[6..]) as usize;
    if bytes.len() - 8 < size {
        return None;
    }
    let check = LittleEndian::read_u16(&bytes[4..]);
    let (contents, rest) = bytes[8..].split_at(size);
    let tag = TagAt {
        name: &bytes[..4],
        check,
        contents,
    };
    Some((tag, rest))
}
