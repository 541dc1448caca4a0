//! Hash tables that number keys, by the order in which the keys first come: keys with hashes of their
//! own, and texts.
#![tactic(auto)]

pub mod group_table;
mod slots;
pub mod text_key;
pub mod text_table;
mod texts;
