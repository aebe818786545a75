//! The flags of memory that MapMemory and UpdateMemoryFlags take.

ghost use Rattle.std.specs.Prelude.{⊤, ◌≡◌, ◌↔◌, [], ◌∷◌, codes, IsTrue, IsSome, IfSome};
ghost use Rattle.syscall_codec.specs.Flags.{flag_reserve, flag_read, flag_write, flag_execute, flag_device, are_known_flags, has_flag};
ghost use Rattle.syscall_codec.specs.Flags.{right_of};
ghost use Rattle.syscall_codec.specs.MapFlags.{bits_of};

use bitflags::{Flag, Flags, bitflag_items};
use xk_base::Right;

/// A set of memory flags. RESERVE and DEV are accepted without effect.
#[derive(Clone, Copy, PartialEq, Eq, Debug)]
pub struct MapFlags(u32);

bitflag_items! {
    impl MapFlags: u32 {
        const RESERVE = 1;
        const R = 2;
        const W = 4;
        const X = 8;
        const DEV = 16;
    }
}

impl Flags for MapFlags {
    type Bits = u32;

    ghost exact = { ⊤ };

    ghost table = { (codes "RESERVE", flag_reserve) ∷ (codes "R", flag_read) ∷ (codes "W", flag_write)
        ∷ (codes "X", flag_execute) ∷ (codes "DEV", flag_device) ∷ [] };

    ghost set_of = { bits_of };

    fn flags<'a>() -> &'a [Flag<MapFlags>] {
        MapFlags::FLAGS
    }

    fn bits(&self) -> u32 {
        self.0
    }

    fn from_bits_retain(bits: u32) -> MapFlags {
        MapFlags(bits)
    }
}

impl MapFlags {
    /// The set of these bits, and `None` exactly where a bit is no flag.
    pub fn from_bits(bits: u32) -> Option<MapFlags>
        ensures known { IsSome result ↔ IsTrue (are_known_flags bits) }
        ensures value { IfSome result (λ flags. bits_of flags ≡ bits) }
    {
        <MapFlags as Flags>::from_bits(bits)
    }

    /// Whether the flags ask to read, without which both calls refuse them.
    pub fn reads(self) -> bool
        ensures { result ≡ has_flag (bits_of self) flag_read }
    {
        self.contains(MapFlags::R)
    }

    /// The right that the flags ask for, beside reading.
    pub fn right(self) -> Right
        ensures { result ≡ right_of (bits_of self) }
    {
        Right {
            w: self.contains(MapFlags::W),
            x: self.contains(MapFlags::X),
        }
    }
}
