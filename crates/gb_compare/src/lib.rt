//! Slots of columns compared, whatever their type.
#![tactic(auto)]

pub mod categories;
pub mod columns;
pub mod inner;
pub mod layout;
mod nested;
pub mod null_order;
pub mod series;
pub mod total_ord;
