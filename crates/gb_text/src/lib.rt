//! The typed CSV text of tables: a source is read into a frame block by block, by all workers, or to its
//! first fault, and a frame is written as text. Here are also the statuses that reading and writing come to.
#![tactic(auto)]

pub mod notes;
pub mod status;
pub mod streams;
pub mod table;
pub mod text;
mod type_word;
