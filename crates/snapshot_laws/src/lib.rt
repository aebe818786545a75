//! Each state that a run comes to can be written as state bytes, and the numbers of the machine that words hold stay words. The functions
//! have no code; their contracts are the laws.
#![tactic(auto)]

mod numbers;
mod saveable;

pub use numbers::all_keep_words;
pub use saveable::{
    all_keep_reserved, all_keep_size, all_keep_spellable, bytes_tell_states,
    file_state_is_spellable, histories_stay_spellable,
};
