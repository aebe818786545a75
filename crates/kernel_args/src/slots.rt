//! The number of slots that the contents of a `SwpS` spell.

ghost use Rattle.kernel_args.specs.Reading.{GivesSlots};

use byteorder::{ByteOrder, LittleEndian};
use xk_base::limits::SLOT_LIMIT;

/// The number of slots that the contents spell, one word of at most 16,384; None where they spell none.
pub fn slots_of(contents: &[u8]) -> Option<u32>
    ensures { GivesSlots contents.now result }
{
    if contents.len() != 4 {
        return None;
    }
    let slots = LittleEndian::read_u32(contents);
    if slots > SLOT_LIMIT {
        return None;
    }
    Some(slots)
}
