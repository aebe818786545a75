//! The names that the contents of a `PNam` spell.

ghost use Rattle.std.specs.Prelude.{◌≡◌, None, IfOk, MatchOption};
ghost use Rattle.kernel_args.specs.Contents.{front_entry as front_entry_of};
ghost use Rattle.kernel_args.specs.Reading.{FrontEntry, GivesNames};

use crate::args::ProcName;
use byteorder::{ByteOrder, LittleEndian};
use std::alloc::Global;
use xk_base::{NoMemory, Row};

/// A name where it lies in an image.
#[derive(Clone, Copy, Debug)]
struct NameAt<'a> {
    pid: u32,
    name: &'a [u8],
}

/// The whole entry at the front of the bytes and the bytes after it, or None where none is there.
fn front_entry(bytes: &[u8]) -> Option<(NameAt<'_>, &[u8])>
    ensures { MatchOption result (front_entry_of bytes.now ≡ None) (λ r. FrontEntry bytes.now r.0.pid r.0.name.now r.1.now) }
{
    if bytes.len() < 8 {
        return None;
    }
    let pid = LittleEndian::read_u32(bytes);
    let len = LittleEndian::read_u32(&bytes[4..]) as usize;
    let padded = len.next_multiple_of(4);
    if bytes.len() - 8 < padded {
        return None;
    }
    let (entry, rest) = bytes[8..].split_at(padded);
    let name = NameAt {
        pid,
        name: &entry[..len],
    };
    Some((name, rest))
}

/// The bytes in a list of their own.
fn copied(alloc: Global, bytes: &[u8]) -> Result<Row<u8>, NoMemory>
    ensures { IfOk result (λ row. row ≡ bytes.now) }
{
    let mut row = Row::new(alloc);
    row.extend_from_slice(bytes)?;
    Ok(row)
}

/// Appends the names whose entries fill the contents. Answers false where the entries don't fill
/// the contents exactly.
pub fn append_names(
    alloc: Global,
    names: &mut Row<ProcName>,
    contents: &[u8],
) -> Result<bool, NoMemory>
    ensures { IfOk result (GivesNames contents.now names.old names.new) }
{
    let mut rest = contents;
    while let Some((entry, after)) = front_entry(rest) {
        let name = copied(alloc, entry.name)?;
        names.push(ProcName {
            pid: entry.pid,
            name,
        })?;
        rest = after;
    }
    Ok(rest.is_empty())
}
