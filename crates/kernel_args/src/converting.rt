//! An image of version 1 is converted into one of version 2.

ghost use Rattle.std.specs.Prelude.{◌≡◌, ◌≤◌, ◌<◌, ◌+◌, ◌*◌, ◌++◌, ◌∷◌, List, length, map, IfOk, OnOk};
ghost use Rattle.std.specs.List.{flat_map, AllByRecursion};
ghost use Rattle.kernel_args.specs.Tags.{Tag, tag_bytes};
ghost use Rattle.kernel_args.specs.Image.{IsRightTag, Spells};
ghost use Rattle.kernel_args.specs.Reading.{tag_of};
ghost use Rattle.kernel_args.specs.Writing.{process_row};
ghost use Rattle.kernel_args.specs.Converting.{tags_in, row_behind_header, left_out as left_out_of, converted_row as converted_row_of};
ghost use Rattle.kernel_args.specs.Converting.{converted_process, converted_tags, converted, IsConvertible, IsRowOf, CanMove};

use crate::appending::append_tag;
use crate::args::{Args, ProcArgs};
use crate::check_number::crc_x25;
use crate::header::{HEADER_SIZE, SECOND_VERSION};
use crate::loads::loaded_bytes;
use crate::tag::{TagAt, front_tag};
use crate::writing::{append_header, append_process};
use std::alloc::Global;
use xk_base::{NoMemory, Row};

/// The sizes in bytes of the old row of tags and of the new one.
#[derive(Clone, Copy, Debug)]
pub struct RowSizes {
    pub old: usize,
    pub new: usize,
}

/// How many bytes of the row of tags are left out: those of the tags named `SwpS`.
fn left_out(row: &[u8]) -> usize
    ensures bytes { result ≡ left_out_of row.now }
    ensures within { result ≤ length row.now }
{
    let mut size = 0;
    let mut rest = row;
    while let Some((tag, after)) = front_tag(rest) {
        if tag.name == b"SwpS".as_slice() {
            size += rest.len() - after.len();
        }
        rest = after;
    }
    size
}

/// The size in bytes of the converted row of tags.
fn converted_row(bytes: &[u8], args: &Args) -> usize
    requires { IsRowOf args.now bytes.now }
    ensures { result ≡ converted_row_of bytes.now args.now }
{
    let (row, _) = bytes.split_at(4 * args.words as usize);
    let (_, tags) = row.split_at(HEADER_SIZE);
    row.len() + 4 * args.procs.as_slice().len() - left_out(tags)
}

/// Appends the `IniE` of the process in the new image.
fn append_converted(
    alloc: Global,
    out: &mut Row<u8>,
    file: &[u8],
    sizes: RowSizes,
    process: &ProcArgs,
) -> Result<(), NoMemory>
    requires { CanMove file.now sizes.old sizes.new process.now }
    ensures { OnOk result (out.new ≡ out.old ++ process_row (converted_process file.now sizes.old sizes.new process.now)) }
{
    let check = crc_x25(loaded_bytes(file, process));
    let load = process.load as usize - sizes.old + sizes.new;
    append_process(alloc, out, load as u32, Some(check), process)
}

/// Appends what the tag becomes. These processes are those of the tag and of the tags behind it; those of the tags
/// behind it are the answer.
fn append_converted_tag<'a>(
    alloc: Global,
    out: &mut Row<u8>,
    file: &[u8],
    sizes: RowSizes,
    tag: &TagAt<'_>,
    procs: &'a [ProcArgs],
) -> Result<&'a [ProcArgs], NoMemory>
    requires tag { IsRightTag (tag_of tag.now) }
    requires procs { AllByRecursion (CanMove file.now sizes.old sizes.new) procs.now }
    ensures bytes { IfOk result (λ left. (ts : List Tag)
        → out.new ++ flat_map tag_bytes (converted_tags (map (converted_process file.now sizes.old sizes.new) left.now) ts)
        ≡ out.old ++ flat_map tag_bytes
        (converted_tags (map (converted_process file.now sizes.old sizes.new) procs.now) (tag_of tag.now ∷ ts))) }
    ensures left { IfOk result (λ left. AllByRecursion (CanMove file.now sizes.old sizes.new) left.now) }
{
    if tag.name == b"IniE".as_slice() {
        if let Some((process, others)) = procs.split_first() {
            append_converted(alloc, out, file, sizes, process)?;
            return Ok(others);
        }
    } else if tag.name != b"SwpS".as_slice() {
        append_tag(out, tag.name, tag.contents)?;
    }
    Ok(procs)
}

/// Appends what the tags of the row become.
fn append_converted_tags(
    alloc: Global,
    out: &mut Row<u8>,
    file: &[u8],
    sizes: RowSizes,
    row: &[u8],
    procs: &[ProcArgs],
) -> Result<(), NoMemory>
    requires tags { AllByRecursion IsRightTag (tags_in row.now) }
    requires procs { AllByRecursion (CanMove file.now sizes.old sizes.new) procs.now }
    ensures { OnOk result (out.new
        ≡ out.old ++ flat_map tag_bytes
        (converted_tags (map (converted_process file.now sizes.old sizes.new) procs.now) (tags_in row.now))) }
{
    let mut procs = procs;
    let mut rest = row;
    while let Some((tag, after)) = front_tag(rest) {
        procs = append_converted_tag(alloc, out, file, sizes, &tag, procs)?;
        rest = after;
    }
    Ok(())
}

/// The size in bytes of the image that `convert` would give; only one of at most 64 MiB can be converted.
pub fn converted_len(bytes: &[u8], args: &Args) -> usize
    requires spelled { Spells bytes.now args.now }
    requires first { args.now.version ≡ 1 }
    ensures { result ≡ length (converted bytes.now args.now) }
{
    bytes.len() - 4 * args.words as usize + converted_row(bytes, args)
}

/// The image of version 2 that plays like this one of version 1: the first tag has version 2 and the new size, each
/// `IniE` has the check number of its sections' bytes and a load offset moved as far as these bytes are, tags named
/// `SwpS` are left out, and all other tags and all bytes behind the row of tags are kept.
pub fn convert(alloc: Global, bytes: &[u8], args: &Args) -> Result<Row<u8>, NoMemory>
    requires { IsConvertible bytes.now args.now }
    ensures { IfOk result (λ image. image ≡ converted bytes.now args.now) }
{
    let sizes = RowSizes {
        old: 4 * args.words as usize,
        new: converted_row(bytes, args),
    };
    let (row, behind) = bytes.split_at(sizes.old);
    let (_, tags) = row.split_at(HEADER_SIZE);
    let procs = args.procs.as_slice();
    let mut out = Row::new(alloc);
    append_header(
        alloc,
        &mut out,
        (sizes.new / 4) as u32,
        SECOND_VERSION,
        args,
    )?;
    append_converted_tags(alloc, &mut out, bytes, sizes, tags, procs)?;
    out.extend_from_slice(behind)?;
    Ok(out)
}
