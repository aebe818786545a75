//! A state is written: it is begun, its rows are appended, and its header is set.

pub mod rows;
pub mod sheet;

ghost use Rattle.std.specs.Prelude.{◌≡◌, ◌≤◌, ◌<◌, ◌^◌, [], length, drop};
ghost use Rattle.suspend_image.specs.Sheets.{with_bytes, begun};
ghost use Rattle.suspend_image.specs.Spelling.{with_header};

use crate::writing::sheet::Sheet;
use kernel_args::crc_x25;

/// Empties the sheet and begins a state in it: the parts are to follow, and then `finish_state`.
pub fn begin_state(sheet: &mut Sheet)
    requires { 16 ≤ sheet.old.room }
    ensures { sheet.new ≡ with_bytes (begun []) sheet.old }
{
    sheet.clear();
    sheet.push_bytes(b"XousSt01".as_slice());
    sheet.push_word(0);
    sheet.push_word(0);
}

/// Sets the length and the check number of a state that was begun, and whose parts were appended.
pub fn finish_state(sheet: &mut Sheet)
    requires begun { sheet.old.bytes ≡ begun (drop 16 sheet.old.bytes) }
    requires few { length sheet.old.bytes < 2 ^ 32 }
    ensures { sheet.new ≡ with_bytes (with_header (drop 16 sheet.old.bytes)) sheet.old }
{
    let bytes = sheet.as_slice();
    let size = bytes.len() as u32;
    let check = crc_x25(&bytes[16..]) as u32;
    sheet.set_word(8, size);
    sheet.set_word(12, check);
}
