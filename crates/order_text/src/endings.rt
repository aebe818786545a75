//! The endings of a search, as they are told.

ghost use Rattle.std.specs.Prelude.{◌≡◌, []};
ghost use Rattle.order_text.specs.Endings.{looks_at};

use order_model::Move;
use std::alloc::Global;

/// An ending that is told otherwise than those before it: what is seen of it, the place of the first of those things of which it fails,
/// the number of the first node that is told so, and the order to it.
#[derive(Drop)]
pub struct Ending {
    pub seen: Vec<u8>,
    pub fails: Option<usize>,
    pub first: usize,
    pub order: Vec<Move>,
}

/// A node where orders end, and the place of the ending that it is like.
#[derive(Clone, Copy, Debug)]
pub struct Look {
    pub node: usize,
    pub ending: usize,
}

/// All endings, and the nodes that are like them.
#[derive(Drop)]
pub struct Endings {
    pub list: Vec<Ending>,
    pub looks: Vec<Look>,
}

impl Endings {
    /// None yet.
    pub fn new(alloc: Global) -> Endings
        ensures list { result.list.items ≡ [] }
        ensures looks { result.looks.items ≡ [] }
    {
        Endings {
            list: Vec::new(alloc),
            looks: Vec::new(alloc),
        }
    }
}

/// How many nodes are like the ending at this place.
pub fn count_looks(looks: &[Look], place: usize) -> u64
    ensures { result ≡ looks_at looks.now place }
{
    looks.iter().filter(|look| look.ending == place).count() as u64
}
