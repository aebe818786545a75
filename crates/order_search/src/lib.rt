//! The orders of an image as a graph that is searched. A node is kept as an order that leads to it: the image is booted, and the order is
//! played again. Nodes are told apart by keys, which are digests of the bytes that spell them. The caller drives the search:
//! `begin_search` begins it, and `follow_node` follows one node more.
#![tactic(auto)]

mod before;
mod beside;
mod console;
mod edges;
mod keys;
mod laws;
mod marks;
mod quest;
mod runs;
mod searching;
mod space;
mod standing;
mod subject;
mod turns;

pub use laws::{bytes_tell_nodes, orders_are_replayed};
pub use quest::{OrderFault, Quest};
pub use searching::{begin_search, follow_node};
pub use standing::Stand;
pub use subject::Subject;
