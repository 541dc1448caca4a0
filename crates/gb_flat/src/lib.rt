//! Buffers that are laid one after another: where each begins, and their items in one vector. Work that
//! is dealt out by ranges.
#![tactic(auto)]

pub mod clean;
mod fill;
pub mod flatten;
pub mod nullable;
pub mod shares;
