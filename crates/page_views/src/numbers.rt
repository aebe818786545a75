//! Numbers in the bytes of a page, lowest byte first.

ghost use Rattle.std.specs.Prelude.{◌≡◌, ◌%◌, ◌<◌, length, slice_index};
ghost use Rattle.ledger_model.specs.Steps.{written};
ghost use Rattle.xk_base.specs.UserMemory.{low_bytes, number_at, size_of};

use xk_base::Width;

/// The number of that width at an offset of a page, lowest byte first.
pub fn read_number(page: &[u8], offset: u32, width: Width) -> u32
    requires whole { length page.now ≡ 4096 }
    requires aligned { offset % size_of width ≡ 0 }
    requires within { offset < 4096 }
    ensures { result ≡ number_at (λ i. slice_index page.now i) offset width }
{
    let at = offset as usize;
    match width {
        Width::Byte => u32::from(page[at]),
        Width::Half => u32::from(u16::from_le_bytes([page[at], page[at + 1]])),
        Width::Word => u32::from_le_bytes([page[at], page[at + 1], page[at + 2], page[at + 3]]),
    }
}

/// Writes the low bytes of a value at an offset of a page, lowest byte first.
pub fn write_number(page: &mut [u8], offset: u32, width: Width, value: u32)
    requires whole { length page.old ≡ 4096 }
    requires aligned { offset % size_of width ≡ 0 }
    requires within { offset < 4096 }
    ensures { page.new ≡ written page.old offset (low_bytes width value) }
{
    let at = offset as usize;
    let [first, second, third, fourth] = value.to_le_bytes();
    match width {
        Width::Byte => page[at] = first,
        Width::Half => {
            page[at] = first;
            page[at + 1] = second;
        }
        Width::Word => {
            page[at] = first;
            page[at + 1] = second;
            page[at + 2] = third;
            page[at + 3] = fourth;
        }
    }
}
