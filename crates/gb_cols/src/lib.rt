//! Columns: each is its name, its type, its list of slots, its chunk lengths and its flags, however its
//! chunks are stored. What every column can be asked is said once.
#![tactic(auto)]

pub mod binary;
pub mod boolean;
pub mod bytes;
pub mod chunked;
pub mod codes;
pub mod near_chunk;
pub mod null;
pub mod primitive;
pub mod series_trait;
mod slices;
pub mod undo_append;
pub mod utf8;
