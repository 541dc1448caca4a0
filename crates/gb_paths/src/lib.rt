//! The paths from rows with keys to their groups: by runs and by codes where these are known, else by one
//! table, or by a table for each partition of the hashes, which several workers share. Each gives the
//! classes of equal slots. Runs and one table give them in the order of their first rows, codes and
//! partitions in their own order where no other is asked for.
#![tactic(auto)]

pub mod by_keys;
pub mod categories;
pub mod classes;
mod gathered_rows;
pub mod group_by;
pub mod into_groups;
pub mod keys;
mod leaders;
mod number_listed;
mod number_partitions;
mod number_rows;
mod number_several;
mod number_texts;
pub mod path;
mod plain_words;
mod range_rows;
mod row_groups;
mod row_hashes;
pub mod row_numbers;
mod row_partitions;
mod run_groups;
pub mod threaded;
pub mod trace;
