//! Messages between processes.

ghost use Rattle.std.specs.Prelude.{◌≡◌};
ghost use Rattle.xk_base.specs.Calls.Kinds.{is_answered, kind_at, kind_number};

use crate::ids::{Number, ThreadId, Vpn};

/// A message that carries pages: lent mutably, lent, or moved.
#[derive(Clone, Copy, Debug, PartialEq, Eq, Hash)]
pub enum MemKind {
    LendMut,
    Lend,
    Move,
}

/// Any message. The first three carry pages, and the others four words.
#[derive(Clone, Copy, Debug, PartialEq, Eq, Hash)]
pub enum MsgKind {
    LendMut,
    Lend,
    Move,
    Scalar,
    BlockingScalar,
}

impl MsgKind {
    /// The number of the kind, in a send and in a delivered message: 1 to 5.
    pub fn number(self) -> u32
        ensures { result ≡ kind_number self }
    {
        match self {
            MsgKind::LendMut => 1,
            MsgKind::Lend => 2,
            MsgKind::Move => 3,
            MsgKind::Scalar => 4,
            MsgKind::BlockingScalar => 5,
        }
    }

    /// The kind of a number; none where no kind has it.
    pub fn from_number(number: u32) -> Option<MsgKind>
        ensures { result ≡ kind_at number }
    {
        match number {
            1 => Some(MsgKind::LendMut),
            2 => Some(MsgKind::Lend),
            3 => Some(MsgKind::Move),
            4 => Some(MsgKind::Scalar),
            5 => Some(MsgKind::BlockingScalar),
            _ => None,
        }
    }

    /// Whether a send of the kind holds its sender until it is answered.
    pub fn is_answered(self) -> bool
        ensures { result ≡ is_answered self }
    {
        match self {
            MsgKind::LendMut | MsgKind::Lend | MsgKind::BlockingScalar => true,
            MsgKind::Move | MsgKind::Scalar => false,
        }
    }
}

/// A message as its server gets it.
#[derive(Clone, Copy, Debug, PartialEq, Eq)]
pub struct Message {
    /// Its token, by which it is returned.
    pub number: Number,
    /// The thread that waits for its answer; none where nobody waits.
    pub sender: Option<ThreadId>,
    pub kind: MsgKind,
    /// The sender's own number for what it asks.
    pub id: u32,
    /// For a message with pages: address at the receiver, length in bytes, offset, valid. Else the
    /// arguments.
    pub words: [u32; 4],
    /// The first page at the receiver; 0 for a message without pages.
    pub first: Vpn,
    /// How many pages; 0 for a message without pages.
    pub count: u32,
}
