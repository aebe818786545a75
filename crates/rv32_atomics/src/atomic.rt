//! The atomic instructions.

/// An instruction of the A extension. `rd`, `rs1` and `rs2` are numbers of registers, below 32. `aq`
/// and `rl` order it among the accesses of other harts, and have no effect where there is one.
#[derive(Clone, Copy, Debug, PartialEq, Eq)]
pub enum Atomic {
    Lr {
        rd: u8,
        rs1: u8,
        aq: bool,
        rl: bool,
    },
    Sc {
        rd: u8,
        rs1: u8,
        rs2: u8,
        aq: bool,
        rl: bool,
    },
    AmoSwap {
        rd: u8,
        rs1: u8,
        rs2: u8,
        aq: bool,
        rl: bool,
    },
    AmoAdd {
        rd: u8,
        rs1: u8,
        rs2: u8,
        aq: bool,
        rl: bool,
    },
    AmoXor {
        rd: u8,
        rs1: u8,
        rs2: u8,
        aq: bool,
        rl: bool,
    },
    AmoAnd {
        rd: u8,
        rs1: u8,
        rs2: u8,
        aq: bool,
        rl: bool,
    },
    AmoOr {
        rd: u8,
        rs1: u8,
        rs2: u8,
        aq: bool,
        rl: bool,
    },
    AmoMin {
        rd: u8,
        rs1: u8,
        rs2: u8,
        aq: bool,
        rl: bool,
    },
    AmoMax {
        rd: u8,
        rs1: u8,
        rs2: u8,
        aq: bool,
        rl: bool,
    },
    AmoMinu {
        rd: u8,
        rs1: u8,
        rs2: u8,
        aq: bool,
        rl: bool,
    },
    AmoMaxu {
        rd: u8,
        rs1: u8,
        rs2: u8,
        aq: bool,
        rl: bool,
    },
}
