//! Bytes are told by marks where most of them are zeros.

ghost use Rattle.std.specs.Prelude.{◌≡◌, ◌++◌, OnOk};
ghost use Rattle.std.specs.List.{flat_map};
ghost use Rattle.order_search.specs.Marks.{block_bytes, is_zeros, marked};

use std::alloc::AllocError;

/// How many bytes a block has.
const BLOCK: usize = 64;

/// Whether a block has zeros alone. All bytes are read, so that many are read at once.
fn is_zeros(block: &[u8; BLOCK]) -> bool
    ensures { result ≡ is_zeros block.now }
{
    let mut all = 0;
    for byte in block {
        all |= *byte;
    }
    all == 0
}

/// Appends a block with its mark.
fn push_block(bytes: &mut Vec<u8>, block: &[u8; BLOCK]) -> Result<(), AllocError>
    ensures { OnOk result (bytes.new.items ≡ bytes.old.items ++ block_bytes block.now) }
{
    if is_zeros(block) {
        bytes.push(0)?;
        return Ok(());
    }
    bytes.push(1)?;
    bytes.extend_from_slice(block)?;
    Ok(())
}

/// Appends blocks, each with its mark.
fn push_blocks(bytes: &mut Vec<u8>, blocks: &[[u8; BLOCK]]) -> Result<(), AllocError>
    ensures { OnOk result (bytes.new.items ≡ bytes.old.items ++ flat_map block_bytes blocks.now) }
{
    for block in blocks {
        push_block(bytes, block)?;
    }
    Ok(())
}

/// Appends bytes with marks.
pub(crate) fn push_marked(bytes: &mut Vec<u8>, told: &[u8]) -> Result<(), AllocError>
    ensures { OnOk result (bytes.new.items ≡ bytes.old.items ++ marked told.now) }
{
    let (blocks, rest) = told.as_chunks::<BLOCK>();
    push_blocks(bytes, blocks)?;
    bytes.extend_from_slice(rest)?;
    Ok(())
}
