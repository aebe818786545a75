//! The tag at the front of an image.

ghost use Rattle.std.specs.Prelude.{◌≡◌, ◌≤◌, ◌+◌, length, IfNone};
ghost use Rattle.std.specs.Bool.{OnFalse};
ghost use Rattle.kernel_args.specs.Faults.{first_fault, is_not_xarg as is_not_xarg_of, is_bad_header_check};
ghost use Rattle.kernel_args.specs.Faults.{is_bad_total as is_bad_total_of, is_bad_ram as is_bad_ram_of, number_at, row_size};
ghost use Rattle.kernel_args.specs.Faults.{is_bad_version as is_bad_version_of, header_faults};
ghost use Rattle.kernel_args.specs.Reading.{HeaderIs};

use crate::check_number::crc_x25;
use crate::faults::{ArgFault, BAD_CHECK, BAD_RAM, BAD_TOTAL, BAD_VERSION, NOT_XARG, TOO_SHORT};
use byteorder::{ByteOrder, LittleEndian};
use xk_base::limits::{CONSOLE_ADDRESS, FRAME_LIMIT, PAGE_SIZE};

/// The size of the first tag, whose contents are five words, in bytes.
pub const HEADER_SIZE: usize = 28;

/// The version whose images can give slots and have check words and up to 64 processes.
pub const SECOND_VERSION: u32 = 2;

/// The most bytes of RAM: 64 MiB.
const RAM_LIMIT: u32 = FRAME_LIMIT * PAGE_SIZE;

/// What the first tag says.
#[derive(Clone, Copy, Debug)]
pub struct Header {
    /// The size of the row of tags in words.
    pub words: u32,
    /// 1 or 2, where the first tag has no fault.
    pub version: u32,
    pub ram_start: u32,
    pub ram_size: u32,
    pub ram_name: [u8; 4],
}

/// Whether the first tag isn't named `XArg` or hasn't five words.
#[tactic(auto, unfolding(crate::specs::Faults::is_not_xarg))]
fn is_not_xarg(bytes: &[u8]) -> bool
    requires { 28 ≤ length bytes.now }
    ensures { result ≡ is_not_xarg_of bytes.now }
{
    &bytes[..4] != b"XArg".as_slice() || LittleEndian::read_u16(&bytes[6..]) != 5
}

/// Whether the first tag's check number isn't that of its contents.
#[tactic(auto, unfolding(crate::specs::Faults::is_bad_header_check))]
fn has_wrong_check(bytes: &[u8]) -> bool
    requires { 28 ≤ length bytes.now }
    ensures { result ≡ is_bad_header_check bytes.now }
{
    LittleEndian::read_u16(&bytes[4..]) != crc_x25(&bytes[8..HEADER_SIZE])
}

/// Whether the version is neither 1 nor 2.
pub fn is_bad_version(version: u32) -> bool
    ensures { result ≡ is_bad_version_of version }
{
    !(version == 1 || version == SECOND_VERSION)
}

/// Whether the row of tags is below seven words or passes the end of the file.
#[tactic(auto, unfolding(crate::specs::Faults::is_bad_total))]
fn is_bad_total(bytes: &[u8]) -> bool
    requires { 28 ≤ length bytes.now }
    ensures value { result ≡ is_bad_total_of bytes.now }
    ensures long { OnFalse result (28 ≤ row_size bytes.now) }
    ensures within { OnFalse result (row_size bytes.now ≤ length bytes.now) }
{
    let size = LittleEndian::read_u32(&bytes[8..]) as usize * 4;
    size < HEADER_SIZE || size > bytes.len()
}

/// Whether RAM isn't made of whole pages, is empty or above 64 MiB, or passes 0xF000_0000.
#[tactic(auto, unfolding(crate::specs::Faults::is_bad_ram))]
pub fn is_bad_ram(start: u32, size: u32) -> bool
    ensures { result ≡ is_bad_ram_of start size }
{
    start % PAGE_SIZE != 0
        || size % PAGE_SIZE != 0
        || size == 0
        || size > RAM_LIMIT
        || start as u64 + size as u64 > CONSOLE_ADDRESS as u64
}

/// The word at an offset.
fn word_at(bytes: &[u8], offset: usize) -> u32
    requires { offset + 4 ≤ length bytes.now }
    ensures { result ≡ number_at 4 offset bytes.now }
{
    LittleEndian::read_u32(&bytes[offset..])
}

/// The first fault of the first tag. Without one the row of tags lies within the file.
#[tactic(auto, unfolding(crate::specs::Faults::header_faults))]
pub fn header_fault(bytes: &[u8]) -> Option<ArgFault>
    ensures fault { result ≡ first_fault (header_faults bytes.now) }
    ensures long { IfNone result (28 ≤ row_size bytes.now) }
    ensures within { IfNone result (row_size bytes.now ≤ length bytes.now) }
{
    if bytes.len() < HEADER_SIZE {
        return Some(ArgFault {
            what: TOO_SHORT,
            at: 0,
        });
    }
    let (what, at) = if is_not_xarg(bytes) {
        (NOT_XARG, 0)
    } else if has_wrong_check(bytes) {
        (BAD_CHECK, 0)
    } else if is_bad_version(word_at(bytes, 12)) {
        (BAD_VERSION, 12)
    } else if is_bad_total(bytes) {
        (BAD_TOTAL, 8)
    } else if is_bad_ram(word_at(bytes, 16), word_at(bytes, 20)) {
        (BAD_RAM, 16)
    } else {
        return None;
    };
    Some(ArgFault { what, at })
}

/// What the first tag says.
pub fn header_of(bytes: &[u8]) -> Header
    requires { 28 ≤ length bytes.now }
    ensures { HeaderIs bytes.now result }
{
    Header {
        words: word_at(bytes, 8),
        version: word_at(bytes, 12),
        ram_start: word_at(bytes, 16),
        ram_size: word_at(bytes, 20),
        ram_name: [bytes[24], bytes[25], bytes[26], bytes[27]],
    }
}
