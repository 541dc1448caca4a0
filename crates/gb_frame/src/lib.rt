//! Frames grouped by their columns: the keys at the first row of each group, and aggregates over its rows.
#![tactic(auto)]

pub mod agg;
pub mod by_names;
mod checks;
mod columns;
pub mod group_agg;
pub mod group_by;
pub mod group_frame;
pub mod key;
mod named_columns;
pub mod options;
mod selection;
