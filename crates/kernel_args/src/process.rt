//! The process that the contents of an `IniE` spell.

ghost use Rattle.std.specs.Prelude.{◌≡◌, ◌≤◌, ◌%◌, true, length, IfOk, Some, MatchOption};
ghost use Rattle.kernel_args.specs.Contents.{front_section as front_section_of};
ghost use Rattle.kernel_args.specs.Faults.{is_bad_length as is_bad_length_of, is_bad_check};
ghost use Rattle.kernel_args.specs.Image.{process_limit as process_limit_of};
ghost use Rattle.kernel_args.specs.Reading.{GivesSections, FrontCheck, GivesProcess};

use crate::args::{KNOWN_FLAGS, ProcArgs, Section};
use crate::header::SECOND_VERSION;
use byteorder::{ByteOrder, LittleEndian};
use std::alloc::Global;
use xk_base::limits::{FIRST_PROCESS_LIMIT, PROCESS_LIMIT, SECTION_LIMIT};
use xk_base::{NoMemory, Row};

/// The most words of the contents without a check word: the load offset, the entry, and two for each section.
const WORDS_LIMIT: usize = 2 + 2 * SECTION_LIMIT as usize;

/// The section at the front of at least eight bytes, and the bytes after it.
fn front_section(bytes: &[u8]) -> (Section, &[u8])
    requires { 8 ≤ length bytes.now }
    ensures { front_section_of bytes.now ≡ Some (result.0, result.1.now) }
{
    let section = Section {
        addr: LittleEndian::read_u32(bytes),
        size: LittleEndian::read_u24(&bytes[4..]),
        flags: bytes[7],
    };
    let (_, rest) = bytes.split_at(8);
    (section, rest)
}

/// The sections that stand one after the other in the bytes, or None where a flag is unknown.
fn sections_of(alloc: Global, bytes: &[u8]) -> Result<Option<Row<Section>>, NoMemory>
    requires { length bytes.now % 8 ≡ 0 }
    ensures { IfOk result (GivesSections bytes.now) }
{
    let mut sections = Row::new(alloc);
    let mut rest = bytes;
    while rest.len() >= 8 {
        let (section, after) = front_section(rest);
        if section.flags > KNOWN_FLAGS {
            return Ok(None);
        }
        sections.push(section)?;
        rest = after;
    }
    Ok(Some(sections))
}

/// The most processes of an image of this version.
pub fn process_limit(version: u32) -> u32
    ensures { result ≡ process_limit_of version }
{
    if version == SECOND_VERSION {
        PROCESS_LIMIT
    } else {
        FIRST_PROCESS_LIMIT
    }
}

/// Whether this many words don't hold the load offset, the entry, in version 2 the check word, and one to 32
/// whole sections.
fn is_bad_length(version: u32, words: usize) -> bool
    ensures { result ≡ is_bad_length_of version words }
{
    if version == SECOND_VERSION {
        words < 5 || words % 2 == 0 || words > WORDS_LIMIT + 1
    } else {
        words < 4 || words % 2 == 1 || words > WORDS_LIMIT
    }
}

/// The check word at the front of the bytes, which is there in version 2, and the bytes after it, or None where
/// it is above 16 bits.
fn front_check(version: u32, bytes: &[u8]) -> Option<(Option<u16>, &[u8])>
    requires { 8 ≤ length bytes.now }
    ensures { MatchOption result (is_bad_check version bytes.now ≡ true) (λ r. FrontCheck version bytes.now r.0 r.1.now) }
{
    if version != SECOND_VERSION {
        return Some((None, bytes));
    }
    let check = u16::try_from(LittleEndian::read_u32(bytes)).ok()?;
    let (_, rest) = bytes.split_at(4);
    Some((Some(check), rest))
}

/// The process that the contents spell in an image of this version: the load offset, the entry, in version 2 the
/// check word, and one to 32 sections; None where they spell none.
pub fn process_of(
    alloc: Global,
    version: u32,
    contents: &[u8],
) -> Result<Option<ProcArgs>, NoMemory>
    requires { length contents.now % 4 ≡ 0 }
    ensures { IfOk result (GivesProcess version contents.now) }
{
    if is_bad_length(version, contents.len() / 4) {
        return Ok(None);
    }
    let load = LittleEndian::read_u32(contents);
    let entry = LittleEndian::read_u32(&contents[4..]);
    let (_, rest) = contents.split_at(8);
    let Some((check, sections)) = front_check(version, rest) else {
        return Ok(None);
    };
    match sections_of(alloc, sections)? {
        None => Ok(None),
        Some(sections) => Ok(Some(ProcArgs {
            load,
            entry,
            check,
            sections,
        })),
    }
}
