//! Whole numbers as columns hold them, and the cells of a table that read as numbers, as decimals and as
//! bytes: what a native number means is said once, for columns, hashes and keys.
#![tactic(auto)]

pub mod decimal_cell;
pub mod hex_cell;
mod number_cell;
pub mod numeric;
