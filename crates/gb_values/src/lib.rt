//! Values in a row, and such values that may be null: the storage of every column that has a buffer of its
//! own. Which orders their slots are in is found by one walk over them.
#![tactic(auto)]

pub mod binary;
pub mod boolean;
pub mod bytes;
pub mod nullable;
pub mod primitive;
pub mod slot_order;
pub mod utf8;
mod validity;
