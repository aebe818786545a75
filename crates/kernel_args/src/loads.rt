//! The bytes that the sections of a process have in the file.

ghost use Rattle.std.specs.Prelude.{◌≡◌, ◌≤◌, ◌+◌, length};
ghost use Rattle.kernel_args.specs.Loads.{is_zero_filled, file_size, file_sizes as file_sizes_of, loaded_bytes as loaded_bytes_of};

use crate::args::{ProcArgs, Section};

/// The flag of a section that is zero-filled.
const ZERO_FILLED: u8 = 2;

/// Whether the section's bytes are zeros, and the file has none of them.
pub fn is_zero_filled(section: &Section) -> bool
    ensures { result ≡ is_zero_filled section.now }
{
    section.flags / ZERO_FILLED % 2 == 1
}

/// How many bytes of the file the section has.
pub fn file_size(section: &Section) -> u32
    ensures { result ≡ file_size section.now }
{
    if is_zero_filled(section) {
        0
    } else {
        section.size
    }
}

/// How many bytes of the file these at most 32 sections have.
pub fn file_sizes(sections: &[Section]) -> u64
    requires { length sections.now ≤ 32 }
    ensures { result ≡ file_sizes_of sections.now }
{
    sections.iter().map(|s| file_size(s) as u64).sum()
}

/// The bytes of the process's sections in the file, which has them all.
pub fn loaded_bytes<'a>(file: &'a [u8], process: &ProcArgs) -> &'a [u8]
    requires few { length process.now.sections ≤ 32 }
    requires within { process.now.load + file_sizes_of process.now.sections ≤ length file.now }
    ensures { result.now ≡ loaded_bytes_of file.now process.now }
{
    let start = process.load as usize;
    let size = file_sizes(process.sections.as_slice()) as usize;
    &file[start..start + size]
}
