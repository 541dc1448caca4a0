//! The bytes of rows: what stands for the slots of several columns at a row, so that rows are the same where
//! their bytes are. Columns are encoded one after another, each by one pass, into one buffer.
#![tactic(auto)]

mod cell_sink;
pub mod context;
mod encode;
mod full_rows;
mod keys;
mod lent_key;
mod logical_cells;
mod nested_cells;
mod row_buffer;
mod row_cells;
mod row_lengths;
mod row_nulls;
pub mod rows_encoded;
pub mod unordered;
pub mod vertical;
