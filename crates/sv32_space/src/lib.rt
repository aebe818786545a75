//! The page tables of Sv32: the spellings of their entries, the walk, address spaces, and how entries and owners
//! together stand for the ledger of pages.
#![tactic(auto)]

pub mod count_laws;
mod entries;
mod place_entries;
pub mod seat_laws;
mod sides;
pub mod small;
mod spaces;
mod tables;
mod walking;

pub use entries::{entry_of, kind_of};
pub use place_entries::{entry_at, entry_said, set_entry};
pub use sides::{Entry, EntryKind, Side};
pub use spaces::{leaf, new_space, root_of, set_leaf};
pub use tables::{entry_word, maps_console, table_of, used_entry};
pub use walking::{Walked, walk};
