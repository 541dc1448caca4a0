//! Aggregates: what is made of a column's slots at the rows of each group.
#![tactic(auto)]

pub mod aggregate;
pub mod by_workers;
mod classes;
mod distinct;
mod extremes;
pub mod fold_groups;
pub mod fold_order;
pub mod group_rows;
mod group_sums;
pub mod lists;
pub mod method;
pub mod number_fold;
pub mod numbered_counts;
mod numbered_folds;
pub mod over;
mod row_fold;
pub mod row_pick;
pub mod series_agg;
pub mod slot_fold;
