//! Entry words, a walk for each reason of a fault, and a space that is made and changed.

ghost use Rattle.std.specs.Prelude.{◌≡◌, ◌+◌, ◌*◌, ◌<◌, ◌≤◌};
ghost use Rattle.phys_pages.specs.Ram.{area};
ghost use Rattle.sv32_space.specs.Spaces.{IsMade};
ghost use Rattle.sv32_space.specs.SpelledEntries.{IsEntry};

use crate::expecting::expect_eq;
use phys_pages::{Ram, Seat};
use std::alloc::Global;
use std::process::Abort;
use sv32_space::{
    Entry, EntryKind, Side, Walked, entry_at, entry_of, kind_of, leaf, new_space, root_of,
    set_entry, set_leaf, walk,
};
use xk_base::{Access, Frame, Pid, Place, Right, Slot, Vpn};

const START: u32 = 0x4000_0000;

const RW: Right = Right { w: true, x: false };

/// An entry of a page frame.
macro_rules! here {
    ($side:expr, $ppn:literal) => {
        EntryKind::Here {
            side: $side,
            ppn: $ppn,
        }
    };
}

/// The words of entries, written down by hand from the bits of each kind, and words that are none.
const ENTRIES: [(u32, Option<EntryKind>); 10] = [
    (0x1000_58D7, Some(here!(Side::Own(RW), 0x4_0016))),
    (0x1000_5BD3, Some(here!(Side::LentOut(RW), 0x4_0016))),
    (0x1000_5953, Some(here!(Side::LentIn, 0x4_0016))),
    (
        0x1000_5B06,
        Some(here!(Side::MutOut { x: false }, 0x4_0016)),
    ),
    (0x1000_59D7, Some(here!(Side::MutIn, 0x4_0016))),
    (
        0x0000_14F6,
        Some(EntryKind::Out {
            side: Side::Own(RW),
            slot: 5,
        }),
    ),
    (0, Some(EntryKind::Free)),
    (0x0000_0400, None),
    (0x1000_58D5, None), // V with W and without R
    (0x1000_58F7, None), // V with G
];

#[test]
fn entry_words(rt: HostRuntime) {
    for (word, wanted) in ENTRIES {
        let kind = kind_of(word);
        expect_eq(&rt, (word, kind), (word, wanted));
        if let Some(kind) = kind {
            expect_eq(&rt, entry_of(kind), word);
        }
    }
}

/// The walk of 0x0001_2345 from this root with these words as the entry in frame 0 and as the entry in frame 1.
fn walked(
    rt: &impl Abort,
    alloc: Global,
    root: Frame,
    words: (u32, u32),
    access: Access,
) -> Walked {
    let mut ram = Ram::new(alloc, START, 8).expect(rt, "memory");
    ram.set_word(START, words.0);
    ram.set_word(START + 4096 + 4 * 0x12, words.1);
    walk(&ram, root, 0x0001_2345, access)
}

/// A root and its entry, and where the walk of a load leads: a pointer to frame 1, and each cause of a fault.
const ROOTS: [(Frame, u32, Walked); 10] = [
    (Frame(0), 0x1000_0401, Walked::Reaches(0x4000_2345)),
    (Frame(0), 0x1000_0400, Walked::PageFault), // V is 0
    (Frame(0), 0x1000_0405, Walked::PageFault), // W without R
    (Frame(0), 0x1000_0411, Walked::PageFault), // a pointer with U
    (Frame(0), 0x1000_0441, Walked::PageFault), // a pointer with A
    (Frame(0), 0x1000_0481, Walked::PageFault), // a pointer with D
    (Frame(0), 0x1000_2001, Walked::PageFault), // a table outside RAM
    (Frame(0), 0x1000_00DF, Walked::Reaches(0x4001_2345)), // a leaf of 4 MiB
    (Frame(0), 0x1000_04DF, Walked::PageFault), // one that is misaligned
    (Frame(8), 0x1000_0401, Walked::PageFault), // a root outside RAM
];

#[test]
fn roots_of_walks(rt: HostRuntime) {
    for (root, word, wanted) in ROOTS {
        let words = (word, 0x1000_08DF);
        let told = walked(&rt, rt.alloc(), root, words, Access::Load);
        expect_eq(&rt, (word, told), (word, wanted));
    }
}

/// An entry of the last level, and where the walk of an access leads: each cause of a fault.
const LEAVES: [(u32, Access, Walked); 12] = [
    // the greatest physical address has 34 bits
    (0xFFFF_FCDF, Access::Store, Walked::Reaches(0x3_FFFF_F345)),
    (0x1000_08DE, Access::Load, Walked::PageFault), // V is 0
    (0x1000_08DD, Access::Fetch, Walked::PageFault), // W without R
    (0x1000_0801, Access::Load, Walked::PageFault), // a pointer
    (0x1000_08CF, Access::Load, Walked::PageFault), // U is 0
    // R for a load, W for a store, X for a fetch
    (0x1000_08D9, Access::Fetch, Walked::Reaches(0x4000_2345)),
    (0x1000_08D9, Access::Load, Walked::PageFault),
    (0x1000_08D3, Access::Store, Walked::PageFault),
    (0x1000_08D7, Access::Fetch, Walked::PageFault),
    (0x1000_089F, Access::Load, Walked::PageFault), // A is 0
    // D is 0, before a store alone
    (0x1000_085F, Access::Load, Walked::Reaches(0x4000_2345)),
    (0x1000_085F, Access::Store, Walked::PageFault),
];

#[test]
fn leaves_of_walks(rt: HostRuntime) {
    for (word, access, wanted) in LEAVES {
        let words = (0x1000_0401, word);
        let told = walked(&rt, rt.alloc(), Frame(0), words, access);
        expect_eq(&rt, (word, access, told), (word, access, wanted));
    }
}

const FIRST: Place = Place {
    pid: Pid(3),
    vpn: Vpn(0x10),
};

const LAST: Place = Place {
    pid: Pid(3),
    vpn: Vpn(0x7_FFFF),
};

// Process 3 in frames 21 to 41, with frame 42 mapped at its first place and its last.
#[test]
fn space_of_process_3(rt: HostRuntime) {
    let mut ram = Ram::new(rt.alloc(), START, 43).expect(&rt, "memory");
    ram.set_word(START + 22 * 4096 + 4 * 0x11, 0x1000_58D7);
    let root = root_of(Pid(3));
    expect_eq(&rt, root, Frame(21));
    new_space(&mut ram, root);
    expect_eq(&rt, ram.word(START + 21 * 4096), 0x1000_5801);
    expect_eq(&rt, ram.word(START + 21 * 4096 + 4 * 511), 0x1000_A401);
    expect_eq(&rt, leaf(&ram, FIRST), 0);
    let word = entry_of(here!(Side::LentOut(RW), 0x4_002A));
    set_leaf(&mut ram, FIRST, word);
    set_leaf(&mut ram, LAST, entry_of(here!(Side::MutIn, 0x4_002A)));
    expect_eq(&rt, leaf(&ram, FIRST), word);
    expect_eq(&rt, ram.word(START + 22 * 4096 + 4 * 0x10), word);
    expect_eq(&rt, ram.word(START + 22 * 4096 + 4 * 0x11), 0);
    expect_eq(
        &rt,
        walk(&ram, root, 0x0001_0123, Access::Load),
        Walked::Reaches(0x4002_A123),
    );
    expect_eq(
        &rt,
        walk(&ram, root, 0x0001_0123, Access::Store),
        Walked::PageFault,
    );
    expect_eq(
        &rt,
        walk(&ram, root, 0x7FFF_FFFC, Access::Store),
        Walked::Reaches(0x4002_AFFC),
    );
    expect_eq(
        &rt,
        walk(&ram, root, 0x0001_1000, Access::Load),
        Walked::PageFault,
    );
    expect_eq(
        &rt,
        walk(&ram, root, 0x0000_F000, Access::Load),
        Walked::PageFault,
    );
    set_leaf(
        &mut ram,
        LAST,
        entry_of(EntryKind::Out {
            side: Side::MutIn,
            slot: 0,
        }),
    );
    expect_eq(
        &rt,
        walk(&ram, root, 0x7FFF_FFFC, Access::Store),
        Walked::PageFault,
    );
}

const AT: Place = Place {
    pid: Pid(2),
    vpn: Vpn(0x4_0000),
};

const NEXT: Place = Place {
    pid: Pid(2),
    vpn: Vpn(0x4_0001),
};

// The entries of a place and of the next one, once that entry was written to the place.
fn written(ram: &mut Ram, entry: Entry) -> [Option<Entry>; 2]
    requires made { IsMade ram.old 2 }
    requires entry { IsEntry (area ram.old) entry }
    ensures made { IsMade ram.new 2 }
    ensures area { area ram.new ≡ area ram.old }
{
    set_entry(ram, AT, entry);
    [entry_at(ram, AT), entry_at(ram, NEXT)]
}

// Each sort of entry is read as it was written, and its neighbour stays free.
#[test]
fn entries_of_places(rt: HostRuntime) {
    let mut ram = Ram::new(rt.alloc(), START, 64).expect(&rt, "memory");
    new_space(&mut ram, Frame(0));
    let here = Entry::At {
        side: Side::LentOut(RW),
        seat: Seat::Frame(Frame(40)),
    };
    expect_eq(
        &rt,
        written(&mut ram, here),
        [Some(here), Some(Entry::Free)],
    );
    let out = Entry::At {
        side: Side::MutIn,
        seat: Seat::Slot(Slot(5)),
    };
    expect_eq(&rt, written(&mut ram, out), [Some(out), Some(Entry::Free)]);
    let console = Entry::OnConsole { w: true };
    expect_eq(
        &rt,
        written(&mut ram, console),
        [Some(console), Some(Entry::Free)],
    );
    expect_eq(
        &rt,
        written(&mut ram, Entry::Free),
        [Some(Entry::Free), Some(Entry::Free)],
    );
}
