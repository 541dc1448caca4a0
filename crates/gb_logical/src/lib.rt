//! Columns over other columns: numbers that mean something else, as dates and decimals, and codes that stand
//! for texts.
#![tactic(auto)]

pub mod categorical;
pub mod logical;
