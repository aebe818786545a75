//! Parts of an image are written.

ghost use Rattle.std.specs.Prelude.{◌≡◌, ◌<◌, ◌*◌, ◌++◌, ◌^◌, length, IfOk, OnOk};
ghost use Rattle.kernel_args.specs.Tags.{tag_bytes};
ghost use Rattle.kernel_args.specs.Contents.{word, section_bytes, process_contents as process_contents_of};
ghost use Rattle.kernel_args.specs.Contents.{header_contents as header_contents_of, slots_contents as slots_contents_of, entry_bytes};
ghost use Rattle.kernel_args.specs.Writing.{with_size, with_load, right_tag, written_entry, names_contents as names_contents_of};

use crate::args::{Args, ProcArgs, ProcName, Section};
use crate::check_number::crc_x25;
use std::alloc::Global;
use xk_base::{NoMemory, Row};

fn append_word(out: &mut Row<u8>, n: u32) -> Result<(), NoMemory>
    ensures { OnOk result (out.new ≡ out.old ++ word n) }
{
    out.extend_from_slice(&n.to_le_bytes())
}

fn append_section(out: &mut Row<u8>, section: Section) -> Result<(), NoMemory>
    ensures { OnOk result (out.new ≡ out.old ++ section_bytes section) }
{
    append_word(out, section.addr)?;
    out.extend_from_slice(&section.size.to_le_bytes()[..3])?;
    out.push(section.flags)
}

/// The contents of an `XArg` of this version, whose row of tags has this many words.
pub fn header_contents(
    alloc: Global,
    words: u32,
    version: u32,
    args: &Args,
) -> Result<Row<u8>, NoMemory>
    ensures { IfOk result (λ row. row ≡ header_contents_of (with_size words version args.now)) }
{
    let mut out = Row::new(alloc);
    append_word(&mut out, words)?;
    append_word(&mut out, version)?;
    append_word(&mut out, args.ram_start)?;
    append_word(&mut out, args.ram_size)?;
    out.extend_from_slice(&args.ram_name)?;
    Ok(out)
}

/// The contents of a `SwpS`.
pub fn slots_contents(alloc: Global, slots: u32) -> Result<Row<u8>, NoMemory>
    ensures { IfOk result (λ row. row ≡ slots_contents_of slots) }
{
    let mut out = Row::new(alloc);
    append_word(&mut out, slots)?;
    Ok(out)
}

/// The contents of an `IniE` of the process with this load offset and check number.
pub fn process_contents(
    alloc: Global,
    load: u32,
    check: Option<u16>,
    process: &ProcArgs,
) -> Result<Row<u8>, NoMemory>
    ensures { IfOk result (λ row. row ≡ process_contents_of (with_load load check process.now)) }
{
    let mut out = Row::new(alloc);
    append_word(&mut out, load)?;
    append_word(&mut out, process.entry)?;
    if let Some(check) = check {
        append_word(&mut out, check as u32)?;
    }
    for section in process.sections.as_slice() {
        append_section(&mut out, *section)?;
    }
    Ok(out)
}

fn append_name(out: &mut Row<u8>, name: &ProcName) -> Result<(), NoMemory>
    requires { length name.now.name < 2 ^ 32 }
    ensures { OnOk result (out.new ≡ out.old ++ entry_bytes (written_entry name.now)) }
{
    let bytes = name.name.as_slice();
    append_word(out, name.pid)?;
    append_word(out, bytes.len() as u32)?;
    out.extend_from_slice(bytes)?;
    for _ in 0..bytes.len().next_multiple_of(4) - bytes.len() {
        out.push(0)?;
    }
    Ok(())
}

/// The contents of a `PNam`.
pub fn names_contents(alloc: Global, names: &[ProcName]) -> Result<Row<u8>, NoMemory>
    requires { length (names_contents_of names.now) < 2 ^ 32 }
    ensures { IfOk result (λ row. row ≡ names_contents_of names.now) }
{
    let mut out = Row::new(alloc);
    for name in names {
        append_name(&mut out, name)?;
    }
    Ok(out)
}

/// Appends the tag with these contents.
pub fn append_tag(out: &mut Row<u8>, name: &[u8], contents: &[u8]) -> Result<(), NoMemory>
    requires { length contents.now < 4 * 65536 }
    ensures { OnOk result (out.new ≡ out.old ++ tag_bytes (right_tag name.now contents.now)) }
{
    out.extend_from_slice(name)?;
    out.extend_from_slice(&crc_x25(contents).to_le_bytes())?;
    out.extend_from_slice(&((contents.len() / 4) as u16).to_le_bytes())?;
    out.extend_from_slice(contents)
}
