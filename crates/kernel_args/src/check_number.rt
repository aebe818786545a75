//! The check number of a tag's contents.

ghost use Rattle.std.specs.Prelude.{◌≡◌, replicate};
ghost use Rattle.std.specs.List.{flat_map};
ghost use Rattle.kernel_args.specs.CheckNumber.{bits, check_number, register_after};

use crate::check_tables::{
    AFTER_EIGHT, AFTER_FIVE, AFTER_FOUR, AFTER_ONE, AFTER_SEVEN, AFTER_SIX, AFTER_SIXTY_FOUR,
    AFTER_SIXTY_THREE, AFTER_THREE, AFTER_TWO,
};

/// The register after the eight bits of a byte.
fn after_byte(register: u16, byte: u8) -> u16
    ensures { result ≡ register_after register (bits 8 byte) }
{
    let mixed = register ^ byte as u16;
    mixed / 256 ^ AFTER_ONE[(mixed % 256) as usize]
}

/// The register after eight bytes. The zero bytes that each looks up count from itself to the group's end, so no
/// look-up waits for another. The register's own two bytes are mixed into the first two.
fn after_group(register: u16, group: &[u8; 8]) -> u16
    ensures { result ≡ register_after register (flat_map (bits 8) group.now) }
{
    let low = register % 256 ^ group[0] as u16;
    let high = register / 256 ^ group[1] as u16;
    AFTER_EIGHT[low as usize]
        ^ AFTER_SEVEN[high as usize]
        ^ AFTER_SIX[group[2] as usize]
        ^ AFTER_FIVE[group[3] as usize]
        ^ AFTER_FOUR[group[4] as usize]
        ^ AFTER_THREE[group[5] as usize]
        ^ AFTER_TWO[group[6] as usize]
        ^ AFTER_ONE[group[7] as usize]
}

/// The register after groups of eight bytes.
fn after_groups(start: u16, groups: &[[u8; 8]]) -> u16
    ensures { result ≡ register_after start (flat_map (flat_map (bits 8)) groups.now) }
{
    let mut register = start;
    for group in groups {
        register = after_group(register, group);
    }
    register
}

/// The register after bytes, one by one.
fn after_bytes(start: u16, bytes: &[u8]) -> u16
    ensures { result ≡ register_after start (flat_map (bits 8) bytes.now) }
{
    let mut register = start;
    for byte in bytes {
        register = after_byte(register, *byte);
    }
    register
}

/// The register after bytes: in groups of eight, then those that fill no group.
fn after_piece(start: u16, bytes: &[u8]) -> u16
    ensures { result ≡ register_after start (flat_map (bits 8) bytes.now) }
{
    let (groups, rest) = bytes.as_chunks::<8>();
    let register = after_groups(start, groups);
    after_bytes(register, rest)
}

/// The register after 64 zero bytes. Its low byte goes over all of them. Its high byte comes down over the first, and goes
/// over the 63 others.
fn after_zeros(register: u16) -> u16
    ensures { result ≡ register_after register (flat_map (bits 8) (replicate 64 0)) }
{
    AFTER_SIXTY_FOUR[(register % 256) as usize] ^ AFTER_SIXTY_THREE[(register / 256) as usize]
}

/// The register after 64 bytes. If all are zeros, as most of a saved state are, they take one look into each of two tables.
fn after_block(register: u16, block: &[u8; 64]) -> u16
    ensures { result ≡ register_after register (flat_map (bits 8) block.now) }
{
    let zeros = *block == [0; 64];
    if zeros {
        after_zeros(register)
    } else {
        after_piece(register, block)
    }
}

/// The register after blocks of 64 bytes.
fn after_blocks(start: u16, blocks: &[[u8; 64]]) -> u16
    ensures { result ≡ register_after start (flat_map (flat_map (bits 8)) blocks.now) }
{
    let mut register = start;
    for block in blocks {
        register = after_block(register, block);
    }
    register
}

/// The check number CRC-16/X-25 of the bytes: in blocks of 64, then the bytes that fill no block.
pub fn crc_x25(bytes: &[u8]) -> u16
    ensures { result ≡ check_number bytes.now }
{
    let (blocks, rest) = bytes.as_chunks::<64>();
    let register = after_blocks(0xFFFF, blocks);
    after_piece(register, rest) ^ 0xFFFF
}
