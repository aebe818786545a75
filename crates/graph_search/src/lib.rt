//! Explicit-state search: the nodes that paths of labels lead to from a start are found breadth first or depth first, each by one path.
//! What is searched is a `Space`. The caller drives the search: `begin` begins it, and `follow` follows one node more or says that it is
//! whole. What was found so far can be read at any time. Nodes are told apart by keys that the space gives.
#![tactic(auto)]

mod following;
mod found;
mod meeting;
mod search;
mod space;

pub use following::{Turn, begin, follow};
pub use found::{Cut, Edge, Extent, Found, Strategy, path_to};
pub use search::Search;
pub use space::{Followed, Space, Successor, Unanswered};
